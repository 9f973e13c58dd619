// The installer's call: a sheet and plan bytes in, 0 or a bare number out.
#![tactic(auto)]

ghost use Rattle.installer.specs.Installing.{Answered, CallSettled, Installed};

use fit::linear::Linear;
use plan::fault::PlanFault;
use plan::place::place;
use tasks::list::TaskList;

// Places the sheet's list by the linear test over the sheet's grid, into the first bytes of the plan. A number and no Result: it is C's call.
// 0, or the number of the first fault that applies; then no byte of the plan was touched.
#[unsafe(no_mangle)]
pub extern "C" fn lanes_place(sheet: &[u8], plan: &mut [u8]) -> u32
    ensures { Installed sheet.now plan.old result plan.new }
{
    match install(sheet, plan) {
        Ok(()) => 0,
        Err(fault) => fault.number(),
    }
}

// The same, with the fault whole.
fn install(sheet: &[u8], plan: &mut [u8]) -> Result<(), PlanFault>
    ensures { Answered sheet.now plan.old result plan.new }
{
    let mut list = TaskList::new();
    list.read(sheet)?;
    let count = list.len();
    if plan.len() < count {
        return Err(PlanFault::PlanLength(plan.len()));
    }
    place(&list, &Linear::over(&list), &mut plan[0..count])
}

// The call has one answer: at most one number, and one content of the buffer.
pub fn call_is_settled()
    ensures { CallSettled }
{}
