// Yeldmur for C and Rust: sheets read and written, rows of text turned into sheets and back, distances,
// lists of the cheapest readings, what two sheets both allow, and the two parts of a sheet, in areas that
// the caller lends. Each function returns 0 or the number of the refusal, and then the numbers behind its
// references keep their values. Where 1 to 4, 1 to 6 or 1 to 7 are named, 14 is among them, right after 1.
#![tactic(auto)]

ghost use Rattle.std.specs.Prelude.{◌≡◌, cond, List, [], ◌∷◌, ℕ, ◌^◌, ◌≤◌, ◌<◌, eqb, length};
ghost use Rattle.tropical_weight.specs.Limits.{node_limit, link_limit, list_limit};
ghost use Rattle.tropical_weight.specs.Limits as Limits;
ghost use Rattle.sheet.specs.declared.form.Form.TheVariants as Form;
ghost use Rattle.sheet.specs.Sheet.{long_trailer, read_number, write_number};
ghost use Rattle.sheet.specs.Answers.{parts, written, written_over, ReadBack};
ghost use Rattle.sheet.specs.Machine.{machine as machine_for, unit_in, link_fields};
ghost use Rattle.sheet.specs.Reading.{next_link};
ghost use Rattle.machine.specs.Readings.{link as link_of};
ghost use Rattle.machine.specs.Distance.{distance as distance_for};
ghost use Rattle.machine.specs.Input.{input_number};
ghost use Rattle.two_probes.specs.Outcome.{both_number, both_answer, both_over};
ghost use Rattle.two_probes.specs.Promise.{Allowed, Reasons};
ghost use Rattle.preheat_bake.specs.Outcome.{split_number, split_answer, split_over};
ghost use Rattle.preheat_bake.specs.Promise.{Parted, Reasons as SplitReasons};
ghost use Rattle.sheet_fields.specs.Counts.{counts_of};
ghost use Rattle.sheet_fields.specs.Units.{unit_told};
ghost use Rattle.sheet_fields.specs.Nodes.{next_node};
ghost use Rattle.sheet_fields.specs.Fields.{fields_of_node};
ghost use Rattle.read_distance.specs.Told.{distance_told};
ghost use Rattle.read_distance.specs.Promise.{Holds, as_told};
ghost use Rattle.text_rows.specs.Convert.{rows_number, sheet_over};
ghost use Rattle.text_rows.specs.Written.{text_number, text_over};
ghost use Rattle.rows.specs.Answers.{sheet_answer, sheet_measured, text_answer, text_measured, Made, Returned, NoText};
ghost use Rattle.shortest_distance.specs.Outcome.{distance_number, distance_answer, work_after as distance_work, result_after as distance_result};
ghost use Rattle.shortest_distance.specs.Promise.{Least};
ghost use Rattle.shortest_path.specs.Outcome.{slots_needed, tested_number, list_number, list_answer, work_after, result_after};
ghost use Rattle.shortest_path.specs.Promise.{Keeps};
ghost use Rattle.nested_costs.specs.NestedCosts.{ShorterLists};
ghost use Rattle.read_back.specs.Answers.{count_number, count_answer, reading_number, reading_answer, run_after};
ghost use Rattle.read_back.specs.Promise.{IsTrue};
ghost use Rattle.yeldmur.specs.Told.{value_told, listed_told, split_told, told_reading, CountTold, ReadingTold, node_distance_told, distance_in, counts_told, link_told, node_told, numbered};
ghost use Rattle.yeldmur.specs.PartLists.{PartLists};
ghost use Rattle.list_answer.specs.ListAnswer.{slots_of};
ghost use Rattle.list_answer.specs.declared.Listed.{Listed};
ghost use Rattle.yeldmur.specs.Areas.{measured_number, bytes_of, bytes_enough, Enough, counts_number, finals_of, Serves};

use machine::climbing::Machine;
use machine::counted::Counted;
use machine::limits::within_limits;
use sheet::accepted::Sheet;
use sheet::form::{Form, LONG_TRAILER};
use sheet::refusal::Refusal;
use sheet::tr::{LINK, NODE};
use sheet::words::WORD;
use tropical_weight::LIST_LIMIT;
use tropical_weight::unit::Unit;

// Tests 1, 14 and 2 to 4 of a byte string as a sheet.
#[unsafe(no_mangle)]
pub extern "C" fn yeldmur_read_sheet(sheet: &[u8]) -> u32
    ensures { result ≡ read_number sheet.now }
{
    match Sheet::new(sheet) {
        Ok(_) => 0,
        Err(refusal) => u32::from(refusal),
    }
}

// What is answered, by numbers: 0 and how many bytes, values or readings, or the number of the refusal. The
// calls that tell several values match by hand: a closure's clause would have to name each of them.
fn tell<T: Copy>(answer: Result<T, Refusal>, value: &mut T) -> u32
    ensures { (result, value.new) ≡ value_told answer value.old }
{
    match answer {
        Ok(told) => {
            *value = told;
            0
        }
        Err(refusal) => u32::from(refusal),
    }
}

// Writes the sheet of these links, four words each, and nodes, three words each, of weights in 64ths, with
// the shorter trailer: tests 1 to 4 and 21.
#[unsafe(no_mangle)]
pub extern "C" fn yeldmur_write_sheet(
    links: &[u32],
    nodes: &[u32],
    start: u32,
    res: &mut [u8],
    size: &mut u64,
) -> u32
    ensures value { result ≡ write_number (parts links.now nodes.now start Form.Short) (length res.old) }
    ensures size_after { (result, size.new) ≡ value_told (written (parts links.now nodes.now start Form.Short) (length res.old)) size.old }
    ensures res_after { res.new ≡ written_over (parts links.now nodes.now start Form.Short) res.old }
    ensures read_back { result ≡ 0 → ReadBack (parts links.now nodes.now start Form.Short) size.new res.new }
{
    let written = sheet::write::write(links, nodes, start, Form::Short, res);
    tell(written.map(|n| n as u64), size)
}

// The same with the longer trailer, of weights in the unit, 64 or 256: tests 1, 14, 2 to 4 and 21.
#[unsafe(no_mangle)]
pub extern "C" fn yeldmur_write_sheet_in(
    links: &[u32],
    nodes: &[u32],
    start: u32,
    unit: u32,
    res: &mut [u8],
    size: &mut u64,
) -> u32
    ensures value { result ≡ write_number (parts links.now nodes.now start (Form.Long unit)) (length res.old) }
    ensures size_after { (result, size.new) ≡ value_told (written (parts links.now nodes.now start (Form.Long unit)) (length res.old)) size.old }
    ensures res_after { res.new ≡ written_over (parts links.now nodes.now start (Form.Long unit)) res.old }
    ensures read_back { result ≡ 0 → ReadBack (parts links.now nodes.now start (Form.Long unit)) size.new res.new }
{
    let written = sheet::write::write(links, nodes, start, Form::Long(unit), res);
    tell(written.map(|n| n as u64), size)
}

// Turns rows of text into a sheet: 8, then 1, 4 and 21.
#[unsafe(no_mangle)]
pub extern "C" fn yeldmur_rows_to_sheet(text: &[u8], res: &mut [u8], size: &mut u64) -> u32
    ensures value { result ≡ rows_number text.now (length res.old) }
    ensures size_after { (result, size.new) ≡ value_told (sheet_answer text.now (length res.old)) size.old }
    ensures res_after { res.new ≡ sheet_over text.now res.old }
    ensures made { result ≡ 0 → Made text.now size.new res.new }
{
    let answer = rows::to_sheet::rows_to_sheet(text, res);
    tell(answer.map(|n| n as u64), size)
}

// The bytes of the sheet of these rows: 8, then 1 and 4.
#[unsafe(no_mangle)]
pub extern "C" fn yeldmur_rows_sheet_bytes(text: &[u8], bytes: &mut u64) -> u32
    ensures bytes_after { (result, bytes.new) ≡ value_told (sheet_measured text.now) bytes.old }
    ensures by_index { (room : ℕ) → rows_number text.now room ≡ measured_number result bytes.new room }
{
    let answer = rows::to_sheet::sheet_bytes(text);
    tell(answer.map(|n| n as u64), bytes)
}

// Turns a sheet into rows of text, which turn into that very sheet: 1, 14, 2 to 4, 9 and 21.
#[unsafe(no_mangle)]
pub extern "C" fn yeldmur_sheet_to_rows(sheet: &[u8], res: &mut [u8], size: &mut u64) -> u32
    ensures value { result ≡ text_number sheet.now (length res.old) }
    ensures size_after { (result, size.new) ≡ value_told (text_answer sheet.now (length res.old)) size.old }
    ensures res_after { res.new ≡ text_over sheet.now res.old }
    ensures returned { result ≡ 0 → Returned sheet.now size.new res.new }
    ensures no_text { result ≡ 9 → NoText sheet.now }
{
    let answer = rows::to_rows::sheet_to_rows(sheet, res);
    tell(answer.map(|n| n as u64), size)
}

// The bytes of the rows of a sheet: 1, 14, 2 to 4 and 9.
#[unsafe(no_mangle)]
pub extern "C" fn yeldmur_sheet_rows_bytes(sheet: &[u8], bytes: &mut u64) -> u32
    ensures bytes_after { (result, bytes.new) ≡ value_told (text_measured sheet.now) bytes.old }
    ensures by_index { (room : ℕ) → text_number sheet.now room ≡ measured_number result bytes.new room }
{
    let answer = rows::to_rows::rows_bytes(sheet);
    tell(answer.map(|n| n as u64), bytes)
}

// The sheet of what two sheets both allow: 1 to 6 of the first, 1 to 6 of the second, whose 14 is also
// another unit than the first's, then 10, 11, 12 and 21.
#[unsafe(no_mangle)]
pub extern "C" fn yeldmur_two_probes(
    first: &[u8],
    second: &[u8],
    res: &mut [u8],
    size: &mut u64,
) -> u32
    ensures value { result ≡ both_number first.now second.now (length res.old) }
    ensures size_after { (result, size.new) ≡ value_told (both_answer first.now second.now (length res.old)) size.old }
    ensures res_after { res.new ≡ both_over first.now second.now res.old }
    ensures allowed { result ≡ 0 → Allowed first.now second.now size.new res.new }
    ensures why { input_number first.now ≡ 0 → input_number second.now ≡ 0 → Reasons first.now second.now (length res.old) result }
{
    let made = two_probes::two_probes(first, second, res);
    tell(made.map(|n| n as u64), size)
}

// The two parts of a sheet at node c, each followed by the numbers of its links in the whole, and how many
// links each has: 1 to 6, then 13 and 21.
#[unsafe(no_mangle)]
pub extern "C" fn yeldmur_split(
    sheet: &[u8],
    c: u32,
    res: &mut [u8],
    first: &mut u32,
    second: &mut u32,
) -> u32
    ensures value { result ≡ split_number sheet.now c (length res.old) }
    ensures second_after { (result, first.new, second.new) ≡ split_told (split_answer sheet.now c (length res.old)) first.old second.old }
    ensures res_after { res.new ≡ split_over sheet.now c res.old }
    ensures parted { result ≡ 0 → Parted sheet.now c (record { first = first.new; second = second.new }) res.new }
    ensures listed { result ≡ 0 → PartLists sheet.now c (record { first = first.new; second = second.new }) res.new }
    ensures why { input_number sheet.now ≡ 0 → SplitReasons sheet.now c (length res.old) result }
{
    match preheat_bake::split(sheet, c, res) {
        Ok(counts) => {
            *first = counts.first;
            *second = counts.second;
            0
        }
        Err(refusal) => u32::from(refusal),
    }
}

// The distances of a sheet's nodes, two words each, 1 and the weight bits, or 0 and 0 where a node is
// unreached; and how many there are.
#[unsafe(no_mangle)]
pub extern "C" fn yeldmur_shortest_distance(
    sheet: &[u8],
    work: &mut [u32],
    res: &mut [u8],
    values: &mut u32,
) -> u32
    ensures value { result ≡ distance_number sheet.now (length work.old) (length res.old) }
    ensures values_after { (result, values.new) ≡ value_told (distance_answer sheet.now (length work.old) (length res.old)) values.old }
    ensures work_new { work.new ≡ distance_work sheet.now work.old (length res.old) }
    ensures res_after { res.new ≡ distance_result sheet.now (length work.old) res.old }
    ensures least { result ≡ 0 → Least (machine_for sheet.now) values.new res.new }
{
    let made = shortest_distance::shortest_distance(sheet, work, res);
    tell(made, values)
}

// The n cheapest readings of a sheet, n up to 64, as a machine and its words: the counts of its states
// and links, and of the entries that the search has taken.
#[unsafe(no_mangle)]
pub extern "C" fn yeldmur_shortest_path(
    sheet: &[u8],
    n: u32,
    work: &mut [u32],
    res: &mut [u8],
    states: &mut u32,
    links: &mut u32,
    taken: &mut u32,
) -> u32
    ensures value { result ≡ list_number sheet.now n (length work.old) (length res.old) }
    ensures taken_after { (result, states.new, links.new, taken.new) ≡ listed_told (list_answer sheet.now n (length work.old) (length res.old)) states.old links.old taken.old }
    ensures work_new { work.new ≡ work_after sheet.now n work.old (length res.old) }
    ensures res_after { res.new ≡ result_after sheet.now n (length work.old) res.old }
    ensures keeps { result ≡ 0 → Keeps (machine_for sheet.now) n states.new links.new taken.new res.new }
    ensures shorter { let told : Listed = record { nodes = states.new; links = links.new; taken = taken.new } in
        result ≡ 0 → ShorterLists sheet.now n told res.new }
{
    match shortest_path::shortest_path(sheet, n, work, res) {
        Ok(made) => {
            *states = made.nodes;
            *links = made.links;
            *taken = made.taken;
            0
        }
        Err(refusal) => u32::from(refusal),
    }
}

// How many readings the result of a list for n holds, whose machine has so many states and links: 7, then
// 30.
#[unsafe(no_mangle)]
pub extern "C" fn yeldmur_readings(
    res: &[u8],
    n: u32,
    states: u32,
    links: u32,
    count: &mut u32,
) -> u32
    ensures value { result ≡ count_number Form.Short res.now n states links }
    ensures count_after { (result, count.new) ≡ value_told (count_answer res.now n states links) count.old }
    ensures count_told { CountTold res.now n states links result count.new }
{
    let readings = read_back::count::count_readings(res, n, states, links);
    tell(readings, count)
}

// Reading k, from 0, of the list for n of a sheet, from its result: the numbers of its links, its cost in
// the sheet's own units and the node where it ends. 1 to 7, 30, 31, 30 and 21.
#[unsafe(no_mangle)]
pub extern "C" fn yeldmur_reading(
    sheet: &[u8],
    n: u32,
    res: &[u8],
    states: u32,
    links: u32,
    k: u32,
    run: &mut [u32],
    count: &mut u32,
    cost: &mut i32,
    end: &mut u32,
) -> u32
    ensures value { result ≡ reading_number sheet.now n res.now states links k (length run.old) }
    ensures end_after { (result, count.new, cost.new, end.new) ≡ told_reading (reading_answer sheet.now n res.now states links k (length run.old)) count.old cost.old end.old }
    ensures run_new { run.new ≡ run_after sheet.now n res.now states links k run.old }
    ensures succeeds { result ≡ 0 → IsTrue (machine_for sheet.now) count.new cost.new end.new run.new }
    ensures reading_told_is { ReadingTold sheet.now n res.now states links k run.old result count.new cost.new end.new run.new }
{
    match read_back::reading::reading(sheet, n, res, states, links, k, run) {
        Ok(told) => {
            *count = told.links;
            *cost = told.cost;
            *end = told.end;
            0
        }
        Err(refusal) => u32::from(refusal),
    }
}

// The bytes of a link of a result, with its word.
const LISTED_LINK: u32 = (LINK + WORD) as u32;

// The bytes that a list for n takes at the most, with a trailer of so many bytes.
fn bytes_enough(nodes: u32, links: u32, finals: u32, n: u32, trailer: u32) -> u32
    requires { (nodes ≤ node_limit) × (links ≤ link_limit) × (finals ≤ nodes) × (n ≤ list_limit) × (trailer ≤ long_trailer) }
    ensures { result ≡ bytes_of trailer nodes links finals n }
{
    match n {
        0 => trailer,
        1 => ((NODE as u32) + LISTED_LINK) * nodes + trailer,
        _ => {
            let entries = 1 + finals + n * (links + 1);
            (NODE as u32) * (entries + 1) + LISTED_LINK * (entries + n) + trailer
        }
    }
}

// The final nodes of a sheet with at most so many nodes and final nodes.
fn finals_of(nodes: u32, finals: u32) -> u32
    ensures { (result ≡ finals_of nodes finals) × (result ≤ nodes) }
{
    nodes.min(finals)
}

// The slots and bytes for a list for n of a sheet with such counts and a trailer of so many bytes: 5 and 7.
fn areas_by(
    nodes: u32,
    links: u32,
    finals: u32,
    n: u32,
    trailer: u32,
    slots: &mut u64,
    bytes: &mut u64,
) -> u32
    requires { (finals ≤ nodes) × (trailer ≤ long_trailer) }
    ensures value { result ≡ counts_number nodes links n }
    ensures few { result ≡ 0 → n ≤ list_limit }
    ensures slots_after { slots.new ≡ cond (eqb result 0) (slots_of nodes links finals n) slots.old }
    ensures bytes_after { bytes.new ≡ cond (eqb result 0) (bytes_of trailer nodes links finals n) bytes.old }
{
    if let Err(refusal) = within_limits(nodes, links) {
        return u32::from(refusal);
    }
    if LIST_LIMIT < n {
        return u32::from(Refusal::Count);
    }
    *slots = u64::from(list_answer::slots_needed(nodes, links, finals, n));
    *bytes = u64::from(bytes_enough(nodes, links, finals, n, trailer));
    0
}

// The areas for a list for n of every accepted sheet, of either form, with at most so many nodes, links and
// final nodes: the work slots and bytes of one that has just these, and the longer trailer. Tests 5 and 7.
// Those for n = 1 are enough for the distances.
#[unsafe(no_mangle)]
pub extern "C" fn yeldmur_areas_of(
    nodes: u32,
    links: u32,
    finals: u32,
    n: u32,
    slots: &mut u64,
    bytes: &mut u64,
) -> u32
    ensures value { result ≡ counts_number nodes links n }
    ensures slots_after { slots.new ≡ cond (eqb result 0) (slots_of nodes links (finals_of nodes finals) n) slots.old }
    ensures bytes_after { bytes.new ≡ cond (eqb result 0) (bytes_of long_trailer nodes links (finals_of nodes finals) n) bytes.old }
    ensures serves { result ≡ 0 → Serves nodes links finals n slots.new bytes.new }
{
    let marked = finals_of(nodes, finals);
    areas_by(nodes, links, marked, n, LONG_TRAILER as u32, slots, bytes)
}

// The areas that a list for n of a sheet is made in: the work slots that it needs, of eight words, and
// bytes that are enough for the result. Tests 1 to 7, in time that grows with the sheet alone. Those
// for n = 1 are enough for the distances.
#[unsafe(no_mangle)]
pub extern "C" fn yeldmur_areas(sheet: &[u8], n: u32, slots: &mut u64, bytes: &mut u64) -> u32
    ensures value { result ≡ tested_number sheet.now n 0 }
    ensures slots_after { slots.new ≡ cond (eqb result 0) (slots_needed sheet.now n) slots.old }
    ensures bytes_after { bytes.new ≡ cond (eqb result 0) (bytes_enough sheet.now n) bytes.old }
    ensures enough { result ≡ 0 → Enough sheet.now n slots.new bytes.new }
{
    match Machine::new(sheet) {
        Ok(m) => {
            let finals = Counted::new(&m).finals;
            let trailer = m.sheet.form.trailer() as u32;
            areas_by(
                m.sheet.nodes,
                m.sheet.links,
                finals,
                n,
                trailer,
                slots,
                bytes,
            )
        }
        Err(refusal) => u32::from(refusal),
    }
}

// A distance as it is told, by numbers.
fn tell_distance(told: Result<Option<i32>, Refusal>, reached: &mut u32, cost: &mut i32) -> u32
    ensures { (result, reached.new, cost.new) ≡ node_distance_told told reached.old cost.old }
{
    match told {
        Ok(Some(units)) => {
            *reached = 1;
            *cost = units;
            0
        }
        Ok(None) => {
            *reached = 0;
            *cost = 0;
            0
        }
        Err(refusal) => u32::from(refusal),
    }
}

// The distance of a node in 64ths, from the result of yeldmur_shortest_distance on a sheet of that unit,
// which told so many values: 30, 31 and 30.
#[unsafe(no_mangle)]
pub extern "C" fn yeldmur_distance(
    res: &[u8],
    values: u32,
    node: u32,
    reached: &mut u32,
    cost: &mut i32,
) -> u32
    ensures cost_after { (result, reached.new, cost.new) ≡ node_distance_told (distance_told Limits.unit res.now values node) reached.old cost.old }
    ensures by_index { (sheet : List ℕ) → Holds sheet values res.now → Limits.unit ≡ unit_in (machine_for sheet) → node < values → (result, reached.new, cost.new) ≡ node_distance_told (as_told (distance_for (machine_for sheet) node)) reached.old cost.old }
{
    tell_distance(
        read_distance::distance_at(res, values, node, Unit::Of64),
        reached,
        cost,
    )
}

// The same in the unit, 64 or 256, of the sheet, which yeldmur_unit tells; before all else 14 for another
// unit.
#[unsafe(no_mangle)]
pub extern "C" fn yeldmur_distance_in(
    res: &[u8],
    values: u32,
    node: u32,
    unit: u32,
    reached: &mut u32,
    cost: &mut i32,
) -> u32
    ensures cost_after { (result, reached.new, cost.new) ≡ node_distance_told (distance_in res.now values node unit) reached.old cost.old }
    ensures by_index { (sheet : List ℕ) → Holds sheet values res.now → unit ≡ 2 ^ unit_in (machine_for sheet) → node < values → (result, reached.new, cost.new) ≡ node_distance_told (as_told (distance_for (machine_for sheet) node)) reached.old cost.old }
{
    let form = Form::Long(unit);
    if !form.fits() {
        return u32::from(Refusal::Unit);
    }
    tell_distance(
        read_distance::distance_at(res, values, node, form.unit()),
        reached,
        cost,
    )
}

// The unit of a sheet, 64 or 256: tests 1, 14 and 2 to 4.
#[unsafe(no_mangle)]
pub extern "C" fn yeldmur_unit(sheet: &[u8], unit: &mut u32) -> u32
    ensures value { result ≡ read_number sheet.now }
    ensures unit_after { (result, unit.new) ≡ value_told (unit_told sheet.now) unit.old }
{
    tell(sheet_fields::unit::unit(sheet), unit)
}

// Tests 1, 14 and 2 to 4 of a byte string as a sheet, and its counts: N, T and F, and its start.
#[unsafe(no_mangle)]
pub extern "C" fn yeldmur_sheet_counts(
    sheet: &[u8],
    nodes: &mut u32,
    links: &mut u32,
    finals: &mut u32,
    start: &mut u32,
) -> u32
    ensures value { result ≡ read_number sheet.now }
    ensures start_after { (result, nodes.new, links.new, finals.new, start.new) ≡ counts_told (counts_of sheet.now) nodes.old links.old finals.old start.old }
{
    match sheet_fields::counts::counts(sheet) {
        Ok(counts) => {
            *nodes = counts.nodes;
            *links = counts.links;
            *finals = counts.finals;
            *start = counts.start;
            0
        }
        Err(refusal) => u32::from(refusal),
    }
}

// The fields of a link by its number, or 31.
#[unsafe(no_mangle)]
pub extern "C" fn yeldmur_link(
    sheet: &[u8],
    number: u32,
    ilabel: &mut u32,
    olabel: &mut u32,
    weight_bits: &mut u32,
    next: &mut u32,
) -> u32
    ensures next_after { result ∷ ilabel.new ∷ olabel.new ∷ weight_bits.new ∷ next.new ∷ [] ≡ link_told (next_link sheet.now number) (ilabel.old ∷ olabel.old ∷ weight_bits.old ∷ next.old ∷ []) }
    ensures next_after_2 { read_number sheet.now ≡ 0 → result ∷ ilabel.new ∷ olabel.new ∷ weight_bits.new ∷ next.new ∷ [] ≡ numbered number (length (machine_for sheet.now).links) (link_fields (unit_in (machine_for sheet.now)) (link_of (machine_for sheet.now) number)) (ilabel.old ∷ olabel.old ∷ weight_bits.old ∷ next.old ∷ []) }
{
    match sheet::reader::link_or_end(sheet, number as usize) {
        Some(link) => {
            *ilabel = link.ilabel;
            *olabel = link.olabel;
            *weight_bits = tropical_weight::to_bits(link.weight);
            *next = link.nextstate;
            0
        }
        None => u32::from(Refusal::Absent),
    }
}

// The fields of a node by its number, or 31.
#[unsafe(no_mangle)]
pub extern "C" fn yeldmur_node(
    sheet: &[u8],
    number: u32,
    links: &mut u32,
    mark: &mut u32,
    weight_bits: &mut u32,
) -> u32
    ensures weight_bits_after { result ∷ links.new ∷ mark.new ∷ weight_bits.new ∷ [] ≡ node_told (next_node sheet.now number) (links.old ∷ mark.old ∷ weight_bits.old ∷ []) }
    ensures weight_bits_after_2 { read_number sheet.now ≡ 0 → result ∷ links.new ∷ mark.new ∷ weight_bits.new ∷ [] ≡ numbered number (length (machine_for sheet.now).finals) (fields_of_node (machine_for sheet.now) number) (links.old ∷ mark.old ∷ weight_bits.old ∷ []) }
{
    match sheet_fields::nodes::node_or_end(sheet, number as usize) {
        Some(node) => {
            *links = node.links;
            *mark = node.mark;
            *weight_bits = tropical_weight::to_bits(node.weight);
            0
        }
        None => u32::from(Refusal::Absent),
    }
}
