// The two records that a line of a pair begins with.
use lender::text::Fields;

// Both records.
#[derive(Clone, Copy)]
pub struct Pair<'a> {
    pub gold: &'a [u8],
    pub gate: &'a [u8],
}

// The records at the front, put into the buffers.
pub fn both_records<'a>(
    fields: &mut Fields,
    gold: &'a mut [u8],
    gate: &'a mut [u8],
) -> Option<Pair<'a>> {
    let gold = fields.hex(gold);
    fields.space()?;
    let gate = fields.hex(gate);
    Some(Pair { gold, gate })
}
