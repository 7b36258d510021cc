// The text of one row, part by part behind what a row holds already. By hand and not by Display: the clauses say the bytes,
// and no heap is used.
ghost use Rattle.std.specs.Prelude.{◌≡◌, true, ◌+◌, ◌≤◌, ◌<◌, ◌++◌, nat_abs, length};
ghost use Rattle.tropical_weight.specs.Limits.{unit, weight_limit};
ghost use Rattle.sheet.specs.Sheet.{parts_of, weight_fits};
ghost use Rattle.sheet.specs.declared.form.Form.{Form};
ghost use Rattle.text_rows.specs.Fields.{million};
ghost use Rattle.row_writer.specs.Room.{part_most, magnitude_most, units_most, weight_most, field_most, row_most, room};
ghost use Rattle.text_rows.specs.Written.{part_text, magnitude_text, weight_text, field_text, and_number, and_weight, link_row, final_row};

use decimals::text::Text;
use decimals::write::decimal_length;
use sheet::accepted::Sheet;
use sheet::tr::BARRED;
use tropical_weight::UNITS;
use tropical_weight::unit::Unit;

// `as` narrows what the clauses bound.
// A row as it is made. Its area has room for any: at least `row_most`.
pub type Row = Text<64>;

// How many millionths are a 64th.
const IN_UNIT: u32 = 1_000_000 / UNITS;

// How many millionths a first digit behind the point counts.
const TENTH: u32 = 100_000;

// A point and the digits of so many millionths, without the zeros at their end; nothing for 0.
fn put_part(row: &mut Row, part: u32)
    requires part_lt_million { part < million }
    requires part_most_fits { length row.old + part_most ≤ room }
    ensures text { row.new ≡ row.old ++ part_text part }
    ensures upper_bound { length row.new ≤ length row.old + part_most }
{
    if part == 0 {
        return;
    }
    row.put_byte(b'.');
    // a while, since it goes by what is left to write and not by a number
    let mut rest = part;
    while 0 < rest {
        row.put_byte(b'0' + ((rest / TENTH) as u8));
        rest = rest % TENTH * 10;
    }
}

// So many units without their sign.
fn put_magnitude(row: &mut Row, units: u32)
    requires units_le_weight_limit { units ≤ weight_limit }
    requires magnitude_most_fits { length row.old + magnitude_most ≤ room }
    ensures text { row.new ≡ row.old ++ magnitude_text units }
    ensures upper_bound { length row.new ≤ length row.old + magnitude_most }
{
    row.put_decimal(units / UNITS);
    put_part(row, units % UNITS * IN_UNIT);
}

// So many units, with a minus sign where negative.
fn put_units(row: &mut Row, units: i32)
    requires units_bound { nat_abs units ≤ weight_limit }
    requires units_most_fits { length row.old + units_most ≤ room }
    ensures text { row.new ≡ row.old ++ weight_text units }
    ensures upper_bound { length row.new ≤ length row.old + units_most }
{
    row.put_sign(units);
    put_magnitude(row, tropical_weight::magnitude(units));
}

// A weight, by its field.
fn put_field(row: &mut Row, bits: u32)
    requires bits_value { weight_fits unit bits ≡ true }
    requires units_most_fits { length row.old + units_most ≤ room }
    ensures text { row.new ≡ row.old ++ field_text bits }
    ensures upper_bound { length row.new ≤ length row.old + units_most }
{
    if bits == BARRED {
        row.put_text(b"Infinity");
        return;
    }
    put_units(
        row,
        tropical_weight::cost(Unit::Of64, tropical_weight::from_bits(bits)),
    );
}

// A tab and a weight, by its field; nothing for a weight of 0.
fn put_weight(row: &mut Row, bits: u32)
    requires bits_value { weight_fits unit bits ≡ true }
    requires weight_most_fits { length row.old + weight_most ≤ room }
    ensures text { row.new ≡ row.old ++ and_weight bits }
    ensures upper_bound { length row.new ≤ length row.old + weight_most }
{
    if bits == 0 {
        return;
    }
    row.put_byte(b'\t');
    put_field(row, bits);
}

// A tab and a number.
fn put_number(row: &mut Row, x: u32)
    requires { length row.old + field_most ≤ room }
    ensures text { row.new ≡ row.old ++ and_number x }
    ensures upper_bound { length row.new ≤ length row.old + field_most }
{
    row.put_byte(b'\t');
    row.put_decimal(x);
}

// Link l of node v. Its weight goes by its bits, since a weight of 0 is told by them.
pub fn link_row(sheet: &Sheet, v: u32, l: u32) -> Row
    requires within { l < sheet.now.links }
    requires short { sheet.now.form ≡ Form.Short }
    ensures text { result ≡ link_row (parts_of sheet.now.bytes.now) v l }
    ensures upper_bound { length result ≤ row_most }
{
    let k = sheet.link(l);
    let mut row = Row::new();
    row.put_decimal(v);
    put_number(&mut row, k.nextstate);
    put_number(&mut row, k.ilabel);
    put_number(&mut row, k.olabel);
    put_weight(&mut row, sheet.link_bits(l));
    row.put_byte(b'\n');
    row
}

// How long the row of link l of node v is. Of its text the weight alone is made: that of a number is not needed for its
// length.
pub fn link_length(sheet: &Sheet, v: u32, l: u32) -> usize
    requires within { l < sheet.now.links }
    requires short { sheet.now.form ≡ Form.Short }
    ensures value { result ≡ length (link_row (parts_of sheet.now.bytes.now) v l) }
    ensures upper_bound { result ≤ row_most }
{
    let k = sheet.link(l);
    let mut weight = Row::new();
    put_weight(&mut weight, sheet.link_bits(l));
    let numbers = decimal_length(v)
        + decimal_length(k.nextstate)
        + decimal_length(k.ilabel)
        + decimal_length(k.olabel);
    // a tab before each number but the first, and the end of the row
    numbers + 3 + weight.len() + 1
}

// The final row of node v; nothing where it has no mark.
pub fn final_row(sheet: &Sheet, v: u32) -> Row
    requires within { v < sheet.now.nodes }
    requires short { sheet.now.form ≡ Form.Short }
    ensures text { result ≡ final_row (parts_of sheet.now.bytes.now) v }
    ensures upper_bound { length result ≤ row_most }
{
    let mut row = Row::new();
    let Some(bits) = sheet.final_bits(v) else {
        return row;
    };
    row.put_decimal(v);
    put_weight(&mut row, bits);
    row.put_byte(b'\n');
    row
}

// How long the final row of node v is, of whose text the weight alone is made.
pub fn final_length(sheet: &Sheet, v: u32) -> usize
    requires within { v < sheet.now.nodes }
    requires short { sheet.now.form ≡ Form.Short }
    ensures value { result ≡ length (final_row (parts_of sheet.now.bytes.now) v) }
    ensures upper_bound { result ≤ row_most }
{
    let Some(bits) = sheet.final_bits(v) else {
        return 0;
    };
    let mut weight = Row::new();
    put_weight(&mut weight, bits);
    decimal_length(v) + weight.len() + 1
}
