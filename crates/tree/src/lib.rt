// Whether a table of rows is good (23): its rows are rows, in tree order, not too many and not too deep.
#![tactic(auto)]

pub mod place;

ghost use Rattle.std.specs.Prelude.{◌≡◌, ◌≤◌, ◌<◌};
ghost use Rattle.rows.specs.Good.{is_good_table};
ghost use Rattle.rows.specs.Rows.{rows_of, top};
ghost use Rattle.tree.specs.Chain.{parent_at, is_var_of, base, Under, Unwound, Stands};

// The parent's word of row i; TOP where there is no such row.
#[tactic(auto, unfolding(crate::specs::Chain::parent_at))]
pub fn parent_at(rows: &[u64], i: usize) -> u64
    ensures { result ≡ parent_at rows.now i }
{
    rows::peek::parent_at(rows, i)
}

// Whether row i is a variable of the scope p.
#[tactic(auto, unfolding(crate::specs::Chain::parent_at))]
pub fn is_var_of(rows: &[u64], i: usize, p: u64) -> bool
    ensures { result ≡ is_var_of rows.now i p }
{
    rows::peek::kind_at(rows, i) == rows::VAR && rows::peek::parent_at(rows, i) == p
}

// The innermost open scope, or TOP, and how many are open. The others are its parent, that one's parent and so on.
#[derive(Clone, Copy)]
struct Spot {
    cur: u64,
    depth: usize,
}

// The scopes that stay open before an item of the scope p.
fn unwind(rows: &[u64], p: u64, first: u64, count: usize) -> Spot
    requires { Under rows.now first count }
    ensures { Unwound rows.now p first count result.cur result.depth }
{
    let mut cur = first;
    for closed in 0..count {
        if cur == p {
            return Spot {
                cur,
                depth: count - closed,
            };
        }
        cur = parent_at(rows, cur as usize);
    }
    Spot { cur, depth: 0 }
}

// Row i, where `depth` scopes are open, of which `cur` is the innermost.
fn stand(rows: &[u64], i: usize, cur: u64, depth: usize) -> Option<Spot>
    requires { (i < 4096) × (depth ≤ 64) × (base rows.now cur depth ≡ top) × Under rows.now cur depth }
    ensures { Stands rows.now i cur depth result }
{
    let kind = rows::peek::kind_at(rows, i);
    let p = parent_at(rows, i);
    if kind == 0 {
        return None;
    }
    let spot = unwind(rows, p, cur, depth);
    if spot.cur != p {
        return None;
    }
    if kind != rows::SCOPE {
        return Some(spot);
    }
    if rows::LEVELS <= spot.depth {
        return None;
    }
    Some(Spot {
        cur: i as u64,
        depth: spot.depth + 1,
    })
}

// 23: the first `n` rows are rows, in tree order, not too many and not too deep.
pub fn good_table(rows: &[u64], n: usize) -> bool
    ensures { result ≡ is_good_table (rows_of rows.now n) }
{
    if rows::MOST_ROWS < n {
        return false;
    }
    let mut spot = Spot {
        cur: rows::TOP,
        depth: 0,
    };
    for i in 0..n {
        match stand(rows, i, spot.cur, spot.depth) {
            Some(next) => spot = next,
            None => return false,
        }
    }
    true
}
