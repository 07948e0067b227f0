// Rows of a header's table looked at word by word, for loops that need no whole row. Of words that are no row each look tells that
// there is nothing.
ghost use Rattle.std.specs.Prelude.{◌≡◌};
ghost use Rattle.rows.specs.Rows.{row_at};
ghost use Rattle.rows.specs.Peek.{kind_of, parent_in, var_in};

use scope::Var;

// The kind of row `i`: SCOPE, VAR or COMMENT; 0 where there is none.
#[tactic(auto, unfolding(crate::specs::Rows::row_at))]
pub fn kind_at(rows: &[u64], i: usize) -> u64
    ensures { result ≡ kind_of (row_at rows.now i) }
{
    if rows.len() / crate::WORDS <= i {
        return 0;
    }
    crate::words_at(rows, crate::WORDS * i).row_kind()
}

// The parent's word of row `i`; TOP where there is none.
pub fn parent_at(rows: &[u64], i: usize) -> u64
    ensures { result ≡ parent_in (row_at rows.now i) }
{
    if kind_at(rows, i) == 0 {
        return crate::TOP;
    }
    rows[crate::WORDS * i + 1]
}

// The variable of row `i`; one of zeros where it is none.
pub fn var_at(rows: &[u64], i: usize) -> Var
    ensures { result ≡ var_in (row_at rows.now i) }
{
    if kind_at(rows, i) != crate::VAR {
        return crate::no_words().var();
    }
    crate::words_at(rows, crate::WORDS * i).var()
}
