// A line of the call replay: `replay GOLDHEX GATEHEX CYCLE CLAIMHEX = NUMBER SIDE PLACE YESNO`.
use crate::pair::{Pair, both_records};
use crate::refusal::{Refusal, told_refusal};
use lender::text::Fields;

// What a line asks for and has as its answer: the records, the cycle and the claim; the three numbers and yes or no, after which the line ends.
#[derive(Clone, Copy)]
pub struct ReplayLine<'a> {
    pub records: Pair<'a>,
    pub cycle: u64,
    pub claim: &'a [u8],
    pub refusal: Refusal,
    pub yes: bool,
}

// The parts of a line after its first word; its records and its claim are put into the buffers.
pub fn replay_line<'a>(
    line: &[u8],
    gold: &'a mut [u8],
    gate: &'a mut [u8],
    claim: &'a mut [u8],
) -> Option<ReplayLine<'a>> {
    let mut fields = Fields::new(line);
    let records = both_records(&mut fields, gold, gate)?;
    let cycle = fields.next_number()?;
    fields.space()?;
    let claim = fields.hex(claim);
    let refusal = told_refusal(&mut fields)?;
    fields.space()?;
    let yes = fields.yes_or_no()?;
    fields.end()?;
    Some(ReplayLine {
        records,
        cycle,
        claim,
        refusal,
        yes,
    })
}
