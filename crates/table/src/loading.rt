ghost use Rattle.std.specs.Prelude.{◌≡◌, true, is_err};
ghost use Rattle.table.specs.Rows.{nothing};
ghost use Rattle.table.specs.Questions.{loaded, answered, left_by};
ghost use Rattle.table.specs.Lawful.{AcceptsExactlyTheLawful, AcceptsEveryLawfulTable};
ghost use Rattle.table.specs.View.{plan_of, Read};

use crate::faults::Fault;
use crate::lawful::Table;
use crate::layout::Header;
use crate::questions::checked;
use crate::rows::Row;

// Asks what `load` asks, and makes no table: the number of tasks, or the fault.
pub fn check(bytes: &[u8]) -> Result<u16, Fault>
    ensures { result ≡ answered (loaded bytes.now) }
{
    let form = checked(bytes)?;
    Ok(form.header.tasks)
}

// The table that the bytes hold.
fn read_table(bytes: &[u8]) -> Result<Table, Fault>
    ensures read { Read bytes.now result }
    ensures exactly { AcceptsExactlyTheLawful bytes.now }
    ensures every { AcceptsEveryLawfulTable }
{
    let form = checked(bytes)?;
    Ok(Table {
        header: form.header,
        rows: form.rows(),
    })
}

impl Table {
    // An empty table: no core, no task.
    #[tactic(auto, unfolding(crate::specs::Sound::sound))]
    pub fn new() -> Table
        ensures { plan_of result ≡ nothing }
    {
        Table {
            header: Header {
                cores: 0,
                tasks: 0,
                ticks: 0,
            },
            rows: [Row::BLANK; 384],
        }
    }

    // Takes the table that the bytes hold and answers its number of tasks, or refuses and keeps the former table.
    pub fn load(&mut self, bytes: &[u8]) -> Result<u16, Fault>
        ensures answer { result ≡ answered (loaded bytes.now) }
        ensures table { plan_of self.new ≡ left_by (loaded bytes.now) (plan_of self.old) }
        ensures kept { is_err result ≡ true → self.new ≡ self.old }
        ensures exactly { AcceptsExactlyTheLawful bytes.now }
        ensures every { AcceptsEveryLawfulTable }
    {
        let table = read_table(bytes)?;
        *self = table;
        Ok(table.header.tasks)
    }
}
