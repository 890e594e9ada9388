// Why a check ends before all operations pass, and the reply that shows it: what has kinds 1 to 13 gets its number here.
ghost use Rattle.std.specs.Prelude.{◌≡◌};
ghost use Rattle.query.specs.Faults.{refusal_reply, image_reply, fragments_reply, variables_reply, fault_reply};
ghost use Rattle.query.specs.declared.fault.Fault.TheVariants.{Refused, Image, Fragments};

use crate::refuse::Refusal;
use fragment::rules::FragmentError;
use rows::BadImage;
use selection::arena::Reply;
use variable::rules::VariableError;

#[derive(Clone, Copy)]
pub enum Fault {
    // Kinds 1 to 3.
    Refused(Refusal),
    // Kind 4; and 1, where the image has no rows.
    Image(BadImage),
    // Kinds 5 to 9.
    Fragments(FragmentError),
    // Kinds 10 to 13 of an operation, with what the operations before it used.
    Variables {
        error: VariableError,
        operation: u32,
        used: u32,
    },
    // Kinds 14 to 17.
    Walk(Reply),
}

impl From<Refusal> for Fault {
    ghost from_gives = { λ refusal fault. fault ≡ Refused refusal };

    fn from(refusal: Refusal) -> Fault {
        Fault::Refused(refusal)
    }
}

impl From<BadImage> for Fault {
    ghost from_gives = { λ bad fault. fault ≡ Image bad };

    fn from(bad: BadImage) -> Fault {
        Fault::Image(bad)
    }
}

impl From<FragmentError> for Fault {
    ghost from_gives = { λ error fault. fault ≡ Fragments error };

    fn from(error: FragmentError) -> Fault {
        Fault::Fragments(error)
    }
}

// A reply of a kind, its operation and number a.
fn shown(kind: u32, operation: u32, a: u32) -> Reply
    ensures { result ≡ record { kind = kind; operation = operation; a = a; b = 0; used = 0 } }
{
    Reply {
        kind,
        operation,
        a,
        b: 0,
        used: 0,
    }
}

fn refusal_reply(refusal: Refusal) -> Reply
    ensures { result ≡ refusal_reply refusal }
{
    match refusal {
        Refusal::Header(bad) => shown(1, 0, bad.word),
        Refusal::Budget { work } => shown(2, 0, work),
        Refusal::Scratch { needed } => shown(3, 0, needed),
    }
}

fn image_reply(bad: BadImage) -> Reply
    ensures { result ≡ image_reply bad }
{
    match bad {
        BadImage::Header(bad) => shown(1, 0, bad.word),
        BadImage::Row { table, row } => Reply {
            b: row,
            ..shown(4, 0, u32::from(table))
        },
    }
}

fn fragments_reply(error: FragmentError) -> Reply
    ensures { result ≡ fragments_reply error }
{
    match error {
        FragmentError::Cycle { fragment } => shown(5, 0, fragment),
        FragmentError::LongChain { fragment } => shown(6, 0, fragment),
        FragmentError::ManyLinks { operation } => shown(7, operation, 0),
        FragmentError::DeepNesting { operation } => shown(8, operation, 0),
        FragmentError::Unused { fragment } => shown(9, 0, fragment),
    }
}

fn variables_reply(error: VariableError, operation: u32, used: u32) -> Reply
    ensures { result ≡ variables_reply error operation used }
{
    let reply = match error {
        VariableError::Output { variable } => shown(10, operation, variable),
        VariableError::Repeated { variable } => shown(11, operation, variable),
        VariableError::Unused { variable } => shown(12, operation, variable),
        VariableError::Misused { argument } => shown(13, operation, argument),
    };
    Reply { used, ..reply }
}

impl From<Fault> for Reply {
    ghost from_gives = { λ fault reply. reply ≡ fault_reply fault };

    fn from(fault: Fault) -> Reply {
        match fault {
            Fault::Refused(cause) => refusal_reply(cause),
            Fault::Image(cause) => image_reply(cause),
            Fault::Fragments(cause) => fragments_reply(cause),
            Fault::Variables {
                error,
                operation,
                used,
            } => variables_reply(error, operation, used),
            Fault::Walk(reply) => reply,
        }
    }
}
