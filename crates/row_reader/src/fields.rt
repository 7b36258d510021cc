// The fields of a row.
ghost use Rattle.std.specs.Prelude.{◌≡◌, ◌≤◌, length};
ghost use Rattle.std.specs.Option.{option_map};
ghost use Rattle.text_rows.specs.Fields.{is_blank};
ghost use Rattle.row_reader.specs.Runs.{in_field};
ghost use Rattle.row_reader.specs.Places.{field_from, field_to, FieldGiven, Spans};

fn is_blank(c: u8) -> bool
    ensures { result ≡ is_blank c }
{
    c == b' ' || c == b'\t'
}

fn in_field(c: u8) -> bool
    ensures { result ≡ in_field c }
{
    !is_blank(c) && c != b'\n'
}

// Past the blanks from a place on. A loop over places and no iterator over the rest of the text,
// whose length would be computed anew at each field of a row.
fn past_blanks(text: &[u8], at: usize) -> usize
    requires { at ≤ length text.now }
    ensures past { result ≡ field_from text.now at }
    ensures within { result ≤ length text.now }
{
    for p in at..text.len() {
        if !is_blank(text[p]) {
            return p;
        }
    }
    text.len()
}

// Where a field that begins here ends: at a blank, a newline or the text's end.
fn field_end(text: &[u8], at: usize) -> usize
    requires { at ≤ length text.now }
    ensures end { result ≡ field_to text.now at }
    ensures within { result ≤ length text.now }
{
    for p in at..text.len() {
        if !in_field(text[p]) {
            return p;
        }
    }
    text.len()
}

// Where a field begins and ends.
#[derive(Clone, Copy)]
pub struct Span {
    pub from: usize,
    pub to: usize,
}

// The row's next field from a place on; an empty one, at the row's end, where it has no more.
pub fn span_at(text: &[u8], at: usize) -> Span
    requires { at ≤ length text.now }
    ensures { Spans text.now at result.from result.to }
{
    let from = past_blanks(text, at);
    let to = field_end(text, from);
    Span { from, to }
}

// The fields of the row that goes on at a place of a text. A place beside the text, and not its rest alone: where the row
// ends is asked for as a place.
#[derive(Clone, Copy)]
pub struct Fields<'a> {
    pub text: &'a [u8],
    pub at: usize,
    ghost inside: { at ≤ length text.now },
}

impl<'a> Fields<'a> {
    // The next field; none at the row's end, where `at` is then. A method and no Iterator: no loop goes over a
    // row's fields, and the clause stands here. Inlined: the option of a slice goes by memory at each field
    // where it is not.
    #[inline(always)]
    pub fn next_field(&mut self) -> Option<&'a [u8]>
        ensures kept { self.new.text ≡ self.old.text }
        ensures given { FieldGiven self.old.text.now self.old.at (option_map (λ f. f.now) result) self.new.at }
    {
        let Span { from, to } = span_at(self.text, self.at);
        self.at = to;
        if from == to {
            return None;
        }
        Some(&self.text[from..to])
    }
}
