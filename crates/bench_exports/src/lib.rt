// Calls that only the benchmark makes: each is measured against the plain reference, and none is shipped.
#![tactic(auto)]

ghost use Rattle.std.specs.Prelude.{◌≡◌};
ghost use Rattle.bench_exports.specs.Measured.{AskedExact, PlacedEither, code_of};

use fit::either::Either;
use fit::exact::Exact;
use fit::linear::Linear;
use fit::question::FitTest;
use plan::fault::PlanFault;
use plan::place::place;
use tasks::list::TaskList;

pub mod play;

// The linear test over the list's grid, or else the exact one.
pub(crate) fn either_over(list: &TaskList) -> Either<Linear, Exact>
    ensures { result.first.grid ≡ list.now.grid }
{
    Either {
        first: Linear::over(list),
        second: Exact,
    }
}

// Places a sheet's list by the linear test or else the exact one, into exactly as many plan bytes as it has tasks.
// A number and no Result: it is C's call.
#[unsafe(no_mangle)]
pub extern "C" fn bench_place_either(sheet: &[u8], plan: &mut [u8]) -> u32
    ensures { PlacedEither sheet.now plan.old result plan.new }
{
    match place_either(sheet, plan) {
        Ok(()) => 0,
        Err(fault) => fault.number(),
    }
}

// The same, with the fault whole.
fn place_either(sheet: &[u8], plan: &mut [u8]) -> Result<(), PlanFault>
    ensures { PlacedEither sheet.now plan.old (code_of result) plan.new }
{
    let mut list = TaskList::new();
    list.read(sheet)?;
    place(&list, &either_over(&list), plan)
}

// Asks the exact test about the last task of a sheet over those before it: 0 for yes, 12 for no, 13 for no task.
// Numbers for C, and no fault whole: a test's no is no fault, and the faults with these numbers tell of a lane and of a call.
#[unsafe(no_mangle)]
pub extern "C" fn bench_ask_exact(sheet: &[u8]) -> u32
    ensures { AskedExact sheet.now result }
{
    let mut list = TaskList::new();
    if let Err(fault) = list.read(sheet) {
        return fault.number();
    }
    let Some((asked, row)) = list.records().split_last() else {
        return 13;
    };
    if Exact.fits(row, *asked) { 0 } else { 12 }
}
