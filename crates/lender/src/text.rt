// The fields of a line: decimal numbers and bytes in lower-case hex, with single spaces between them.
ghost use Rattle.std.specs.Prelude.{◌≡◌, ◌+◌, ◌<◌, ◌≤◌, ◌↔◌, ◌≢◌, ◌∷◌, ◌++◌, ℕ, List, Bool, false, IfSome, IsNone, IsSome, length};
ghost use Rattle.lender.specs.Numbers.{answer_word, begins, decimal, past_digits};

// What is left of a line. Each reader takes its field off the front, and answers None where that field does not stand there; bytes in hex are as many as stand there.
#[derive(Clone, Copy)]
pub struct Fields<'a> {
    pub rest: &'a [u8],
}

// The value of a lower-case hex digit.
fn nibble(digit: u8) -> Option<u8>
    ensures { IfSome result (λ value. value < 16) }
{
    match digit {
        b'0'..=b'9' => Some(digit - b'0'),
        b'a'..=b'f' => Some(digit - b'a' + 10),
        _ => None,
    }
}

impl<'a> Fields<'a> {
    // The fields of a text.
    pub fn new(text: &'a [u8]) -> Self
        ensures { result.rest.now ≡ text.now }
    {
        Fields { rest: text }
    }

    // A given text.
    fn text(&mut self, text: &[u8]) -> Option<()>
        ensures none { IsNone result → self.new ≡ self.old }
        ensures some { IsSome result → length text.now + length self.new.rest.now ≡ length self.old.rest.now }
        ensures taken { IsSome result → self.old.rest.now ≡ text.now ++ self.new.rest.now }
        ensures absent { IsNone result → (rest : List ℕ) → self.old.rest.now ≢ text.now ++ rest }
    {
        self.rest = self.rest.strip_prefix(text)?;
        Some(())
    }

    // One space.
    pub fn space(&mut self) -> Option<()>
        ensures none { IsNone result → self.new ≡ self.old }
        ensures some { IsSome result → 1 + length self.new.rest.now ≡ length self.old.rest.now }
        ensures taken { IsSome result → self.old.rest.now ≡ 32 ∷ self.new.rest.now }
        ensures absent { IsNone result → (rest : List ℕ) → self.old.rest.now ≢ 32 ∷ rest }
    {
        self.text(b" ")
    }

    // The sign between what a line asks for and what it has as its answer.
    pub fn equals(&mut self) -> Option<()>
        ensures none { IsNone result → self.new ≡ self.old }
        ensures some { IsSome result → 3 + length self.new.rest.now ≡ length self.old.rest.now }
    {
        self.text(b" = ")
    }

    // The end of the line.
    pub fn end(&self) -> Option<()>
        ensures { IsSome result ↔ (length self.now.rest.now ≡ 0) }
    {
        if self.rest.is_empty() { Some(()) } else { None }
    }

    // A decimal digit.
    #[tactic(auto, using(crate::specs::NumbersLaws::no_digit), unfolding(crate::specs::Numbers::begins))]
    fn digit(&mut self) -> Option<u8>
        ensures none { IsNone result → (self.new ≡ self.old) × (begins self.old.rest.now ≡ false) }
        ensures some { IfSome result (λ d. (d < 10) × (self.old.rest.now ≡ (48 + d) ∷ self.new.rest.now)) }
    {
        let (first, rest) = self.rest.split_first()?;
        if *first < b'0' || b'9' < *first {
            return None;
        }
        self.rest = rest;
        Some(*first - b'0')
    }

    // A decimal number; the largest number stands for all that do not fit.
    #[tactic(auto, using(crate::specs::NumbersLaws::next_digit, crate::specs::NumbersLaws::read_all))]
    pub fn number(&mut self) -> Option<u64>
        ensures number { result ≡ decimal self.old.rest.now }
        ensures rest { self.new.rest.now ≡ past_digits self.old.rest.now }
    {
        let mut number: Option<u64> = None;
        while let Some(digit) = self.digit() {
            let tens = number.unwrap_or(0).saturating_mul(10);
            number = Some(tens.saturating_add(u64::from(digit)));
        }
        number
    }

    // A space and a decimal number.
    pub fn next_number(&mut self) -> Option<u64>
        ensures number { (rest : List ℕ) → self.old.rest.now ≡ 32 ∷ rest → result ≡ decimal rest }
        ensures rest { (rest : List ℕ) → self.old.rest.now ≡ 32 ∷ rest → self.new.rest.now ≡ past_digits rest }
        ensures none { ((rest : List ℕ) → self.old.rest.now ≢ 32 ∷ rest) → IsNone result }
        ensures same { ((rest : List ℕ) → self.old.rest.now ≢ 32 ∷ rest) → self.new ≡ self.old }
    {
        self.space()?;
        self.number()
    }

    // The word `yes` or `no`.
    #[tactic(auto, using(crate::specs::NumbersLaws::no_answer))]
    pub fn yes_or_no(&mut self) -> Option<bool>
        ensures some { IfSome result (λ yes. self.old.rest.now ≡ answer_word yes ++ self.new.rest.now) }
        ensures none { IsNone result → self.new ≡ self.old }
        ensures absent { IsNone result → (yes : Bool) (rest : List ℕ) → self.old.rest.now ≢ answer_word yes ++ rest }
    {
        if self.text(b"yes").is_some() {
            return Some(true);
        }
        self.text(b"no")?;
        Some(false)
    }

    // The byte of two hex digits.
    fn byte(&mut self) -> Option<u8> {
        let [high, low, rest @ ..] = self.rest else {
            return None;
        };
        let byte = nibble(*high)? * 16 + nibble(*low)?;
        self.rest = rest;
        Some(byte)
    }

    // The bytes in hex, put into `out` as far as it reaches; `-` stands for none.
    pub fn hex<'b>(&mut self, out: &'b mut [u8]) -> &'b [u8]
        ensures { length result.now ≤ length out.old }
    {
        if self.text(b"-").is_some() {
            return &out[..0];
        }
        for i in 0..out.len() {
            match self.byte() {
                Some(byte) => out[i] = byte,
                None => return &out[..i],
            }
        }
        out
    }
}
