#![tactic(auto)]

ghost use Rattle.std.specs.Prelude.{◌≡◌};
ghost use Rattle.table.specs.Questions.{loaded};
ghost use Rattle.firmware.specs.Told.{told};

use table::loading::check;

// The table check for C: the number of tasks of a lawful table, or the refusal's number, negated.
// It asks what `Table::load` asks, takes any bytes, and needs no heap. C has no `Result`: the sign tells the two apart.
#[unsafe(no_mangle)]
pub extern "C" fn station_table_check(bytes: &[u8]) -> i32
    ensures { result ≡ told (loaded bytes.now) }
{
    match check(bytes) {
        Ok(tasks) => i32::from(tasks),
        Err(fault) => -i32::from(fault.number()),
    }
}
