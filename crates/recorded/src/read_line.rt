// A line of the call read: `read HEX = NUMBER SIDE PLACE`.
use crate::refusal::{Refusal, told_refusal};
use lender::text::Fields;

// What a line asks for and has as its answer: the record and the three numbers, after which the line ends.
#[derive(Clone, Copy)]
pub struct ReadLine<'a> {
    pub record: &'a [u8],
    pub refusal: Refusal,
}

// The parts of a line after its first word; its record is put into `record`.
pub fn read_line<'a>(line: &[u8], record: &'a mut [u8]) -> Option<ReadLine<'a>> {
    let mut fields = Fields::new(line);
    let record = fields.hex(record);
    let refusal = told_refusal(&mut fields)?;
    fields.end()?;
    Some(ReadLine { record, refusal })
}
