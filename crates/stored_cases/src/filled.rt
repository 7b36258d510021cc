// An area that is filled from its start on.
ghost use Rattle.std.specs.Prelude.{◌≡◌, ◌+◌, ◌*◌, ◌≤◌, ◌<◌, ◌∷◌, ◌++◌, ◌-◌, [], length, get_or};

use crate::bytes::Part;

// An area, and how many bytes at its start are filled. Not the `Text` of crate decimals, which owns its area:
// this one is lent.
#[derive(Drop)]
pub struct Filled<'a> {
    pub area: &'a mut [u8],
    pub count: usize,
    pub ghost within: { count ≤ length area.now },
}

impl<'a> Filled<'a> {
    ghost use Rattle.stored_cases.specs.Parts.{again, raised, raised_again, can_again, with_part, with_parts, parts_from};
    ghost use Rattle.stored_cases.specs.Filled.{filled, Fills};

    // Puts a byte behind those that are there.
    fn put(&mut self, value: u8)
        requires { self.old.count < length self.old.area.now }
        ensures { Fills self.old self.new (filled self.old ++ value ∷ []) }
    {
        self.area[self.count] = value;
        self.count += 1;
    }

    // The byte that stands so many before the next: 0, where that is the next itself.
    fn behind(&self, back: usize) -> u8
        requires { back ≤ self.now.count }
        ensures { result ≡ get_or (filled self.now) (length (filled self.now) - back) 0 }
    {
        if back == 0 {
            return 0;
        }
        self.area[self.count - back]
    }

    // Puts so many bytes more, each as the one that stands so many before it.
    fn put_again(&mut self, back: usize, more: usize)
        requires { (back ≤ self.old.count) × (self.old.count + more ≤ length self.old.area.now) }
        ensures { Fills self.old self.new (again back more (filled self.old)) }
    {
        for turn in 0..more {
            let value = self.behind(back);
            self.put(value);
        }
    }

    // Makes the low half of the last word one higher.
    fn raise(&mut self)
        requires { 4 ≤ self.old.count }
        ensures { Fills self.old self.new (raised (filled self.old)) }
    {
        let at = self.count - 4;
        let half = u16::from_le_bytes([self.area[at], self.area[at + 1]]).wrapping_add(1);
        let [low, high] = half.to_le_bytes();
        self.area[at] = low;
        self.area[at + 1] = high;
    }

    // Puts the last so many bytes again so many times, each time with the last word raised.
    fn put_raised(&mut self, back: usize, times: usize)
        requires { (4 ≤ back) × (back ≤ self.old.count) × (self.old.count + times * back ≤ length self.old.area.now) }
        ensures { Fills self.old self.new (raised_again back times (filled self.old)) }
    {
        for turn in 0..times {
            self.put_again(back, back);
            self.raise();
        }
    }

    // Whether so many bytes more have room, by as many as are there, and at least so many.
    fn can_again(&self, least: usize, back: usize, more: usize) -> bool
        ensures { result ≡ can_again (length self.now.area.now) least back more (filled self.now) }
    {
        least <= back && back <= self.count && more <= self.area.len() - self.count
    }

    // Puts the bytes of a part, where there is room.
    pub fn put_part(&mut self, part: Part)
        ensures { Fills self.old self.new (with_part (length self.old.area.now) (filled self.old) part) }
    {
        match part {
            Part::Byte(value) => {
                if self.count < self.area.len() {
                    self.put(value);
                }
            }
            Part::Nothing => (),
            Part::Again { back, more } => {
                if self.can_again(0, back, more) {
                    self.put_again(back, more);
                }
            }
            Part::Raised { back, more } => {
                if self.can_again(4, back, more) {
                    self.put_raised(back, more / back);
                    self.put_again(back * (more / back + 1), more % back);
                }
            }
        }
    }
    // Puts the bytes of the parts that a text begins with.
    pub fn put_text(&mut self, text: &[u8])
        ensures { Fills self.old self.new (with_parts (length self.old.area.now) (filled self.old) (parts_from 0 text.now)) }
    {
        let mut rest = text;
        // A while let: each part tells itself where the next begins.
        while let Some(part) = Part::of(rest) {
            self.put_part(part);
            rest = rest.get(part.size()..).unwrap_or(&[]);
        }
    }
}
