// Kinds 10 to 17, operation by operation.
ghost use Rattle.std.specs.Prelude.{◌<◌, ◌≤◌};
ghost use Rattle.tables.specs.Layout.{operations};
ghost use Rattle.tables.specs.Image.{count_at};
ghost use Rattle.query.specs.Operation.{Lent, Checked, Ready, CheckedAll};
ghost use Rattle.query.specs.Outcome.{outcome, Stops};

use crate::fault::Fault;
use selection::prepare::prepare;
use selection::walk::validate_operation;
use tables::{OPERATIONS, count};
use variable::rules::{validate_variable_definitions, words_needed};

// One operation: what is used after it, or the fault that ends the check. The rules on variables are lent the words in front, the
// walk those behind them, whose reply has kind 0 where the operation passes.
fn check_operation(
    image: &[u32],
    s: &mut [u32],
    work: u32,
    operation: u32,
    used: u32,
) -> Result<u32, Fault>
    requires { Lent image.now work s.old × (operation < count_at image.now operations) × (used ≤ work) }
    ensures says { Checked image.now work s.old s.new operation used (outcome operation result) }
    ensures stops { Stops result }
{
    if let Err(error) = validate_variable_definitions(image, s, operation) {
        return Err(Fault::Variables {
            error,
            operation,
            used,
        });
    }
    let front = words_needed(image);
    let reply = validate_operation(image, &mut s[front..], work, operation, used);
    if reply.kind == 0 {
        Ok(reply.used)
    } else {
        Err(Fault::Walk(reply))
    }
}

// All of them, up to the first that ends the check; what one has used is where the next goes on.
fn check_each(image: &[u32], s: &mut [u32], work: u32) -> Result<u32, Fault>
    requires { Lent image.now work s.old }
    ensures { CheckedAll image.now work s.old s.new (outcome 0 result) }
{
    let mut used = 0;
    for operation in 0..count(image, OPERATIONS) {
        used = check_operation(image, s, work, operation, used)?;
    }
    Ok(used)
}

// Parents and classes are written once, where the walk of each operation reads them.
pub(crate) fn check_operations(image: &[u32], s: &mut [u32], work: u32) -> Result<u32, Fault>
    requires { Ready image.now work s.old }
    ensures { CheckedAll image.now work s.old s.new (outcome 0 result) }
{
    let front = words_needed(image);
    prepare(image, &mut s[front..]);
    check_each(image, s, work)
}
