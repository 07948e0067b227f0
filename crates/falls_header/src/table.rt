// The contracts of `record` once more.
ghost use Rattle.std.specs.Prelude.{◌≡◌};
ghost use Rattle.record.specs.Record.{record_at};

use command::Command;

pub fn record_at(records: &[u64], i: usize) -> Option<Command>
    ensures { result ≡ record_at records.now i }
{
    record::record_at(records, i)
}
