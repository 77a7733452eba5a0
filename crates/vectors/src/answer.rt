// What a case gives: `ok OUTPUT` or `refused NUMBER`, and the rows that were used, but for make, where their number is left open.
use crate::case::{Call, Case};
use crate::fault::Fault;
use crate::hex::Hex;
use arithmetic::RowUnit;
use scheme::{Job, Refusal, open_record, test_key};
use std::alloc::Global;

// What the output holds before a call.
const FILL: u8 = 0xA5;

pub(crate) fn line<U: RowUnit>(heap: Global, case: &Case, unit: &mut U) -> Result<String, Fault> {
    let mut call = case.call.clone()?;
    let mut out = vec![in heap; FILL; case.length]?;
    let mut text = match serve(&mut call, case.set, out.as_mut_slice(), unit) {
        Ok(()) => format!(in heap; "ok {}", Hex(out.as_slice()))?,
        Err(refusal) => refused(heap, refusal, out.as_slice())?,
    };
    if coins_left(&call) {
        text.push_str(", the coins are not zeros")?;
    }
    if !matches!(call, Call::Make { .. }) {
        write!(text, " rows {}", unit.count())?;
    }
    Ok(text)
}

fn coins_left(call: &Call) -> bool {
    match call {
        Call::Make { coins } | Call::Seal { coins, .. } => coins.iter().any(|coin| *coin != 0),
        Call::Open { .. } | Call::Test { .. } => false,
    }
}

fn serve<U: RowUnit>(
    call: &mut Call,
    set: u8,
    out: &mut [u8],
    unit: &mut U,
) -> Result<(), Refusal> {
    match call {
        Call::Make { coins } => Job::begin(coins.as_mut_slice()).make(set, out, unit),
        Call::Seal { card, coins } => {
            Job::begin(coins.as_mut_slice()).seal(set, card.as_slice(), out, unit)
        }
        Call::Open { card, record } => {
            open_record(set, card.as_slice(), record.as_slice(), out, unit)
        }
        Call::Test { card } => test_key(set, card.as_slice(), unit),
    }
}

// A refusal, and whether it left the output as it was.
fn refused(heap: Global, refusal: Refusal, out: &[u8]) -> Result<String, Fault> {
    let mut text = format!(in heap; "refused {}", refusal.number())?;
    if out.iter().any(|byte| *byte != FILL) {
        text.push_str(", the output was changed")?;
    }
    Ok(text)
}
