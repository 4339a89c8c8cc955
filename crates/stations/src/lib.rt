// Station files: how they are judged and read.
#![tactic(auto)]

ghost use Rattle.std.specs.Prelude.{◌≡◌};
ghost use Rattle.stations.specs.File.{StationOutcome, station_outcome};

use refusals::Refusal;

mod file;

// Reads a station file: its tables and its plan into the areas, zeros after. Where the file is refused the areas are untouched.
pub fn read_station(file: &[u8], tables: &mut [u8], plan: &mut [u8]) -> Result<usize, Refusal>
    ensures whole { ◌≡◌ {A = StationOutcome} (record { answer = result; tables = tables.new; plan = plan.new })
        (station_outcome file.now tables.old plan.old) }
{
    file::judge_form(file)?;
    let mut held_tables = [0u8; tables::LENGTH];
    let mut held_plan = [0u8; file::LONGEST];
    let count = file::count_blocks(file);
    file::gather(file, 0, blocks::TABLE_BLOCKS, &mut held_tables);
    let size = file::gather(file, blocks::TABLE_BLOCKS, count, &mut held_plan);
    file::deliver(&held_tables, &held_plan[..size], tables, plan)
}
