// The three numbers that every recorded answer begins with.
use crate::outcome::{Part, Trouble, compared};
use lender::text::Fields;

// Number, side and place of a recorded answer.
#[derive(Clone, Copy)]
pub struct Refusal {
    pub number: u64,
    pub side: u64,
    pub place: u64,
}

// The three numbers after ` = `.
pub fn told_refusal(fields: &mut Fields) -> Option<Refusal> {
    fields.equals()?;
    let number = fields.number()?;
    let side = fields.next_number()?;
    let place = fields.next_number()?;
    Some(Refusal {
        number,
        side,
        place,
    })
}

// They compared with an answer's.
pub fn compared_refusal(told: Refusal, number: u32, side: u32, place: u32) -> Result<(), Trouble> {
    compared(Part::Number, told.number, u64::from(number))?;
    compared(Part::Side, told.side, u64::from(side))?;
    compared(Part::Place, told.place, u64::from(place))
}
