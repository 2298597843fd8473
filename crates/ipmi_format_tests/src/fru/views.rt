//! Reading an inventory without printing it: the heads of its areas, the fields of an area, and its records.
use super::examples::BOARD;
use crate::cases::{assert_text, bytes_of, parts};
use ipmi_fru::{AreaFault, AreaView, Field, FruFault, FruView, MultiFault};
use std::alloc::{AllocError, Global};
use std::process::Abort;

/// `index of a field of the board|field`.
const FIELDS: &str = "0|Some(Field { code: 2, bytes: [41, 220, 166] })
1|Some(Field { code: 1, bytes: [18, 59] })
2|Some(Field { code: 3, bytes: [65, 233, 0, 66] })
3|None
18446744073709551615|None";

/// The first five results of the iterator over the fields of the board.
const LISTED: &str =
    "[Some(Field { code: 2, bytes: [41, 220, 166] }), Some(Field { code: 1, bytes: [18, 59] }), \
    Some(Field { code: 3, bytes: [65, 233, 0, 66] }), None, None]";

/// An inventory of a chassis and a product.
const CHASSIS_AND_PRODUCT: &str = "01000100020000fc010117c100000026010119c100000024";

/// Three records. The second is marked as the last.
const THREE_RECORDS: &str = "01000000000100fec00201023bfec18f0000b0c2820000bc";

/// Records. The first has a wrong checksum.
const WRONG_RECORD: &str = "01000000000100fec002000040c18f0000b0";

/// The first four results of the iterator over `THREE_RECORDS`: nothing comes after the second.
const TWO_RECORDS: &str =
    "[Some(Ok(MultiView { kind: 192, version: 2, last: false, bytes: [254] })), \
    Some(Ok(MultiView { kind: 193, version: 15, last: true, bytes: [] })), None, None]";

/// An area, if there is one, or its fault.
type Area<'a> = Option<Result<AreaView<'a>, AreaFault>>;

fn head_of<'a>(area: Area<'a>) -> Option<Result<&'a [u8], AreaFault>> {
    match area {
        Some(Ok(area)) => Some(Ok(area.head())),
        Some(Err(fault)) => Some(Err(fault)),
        None => None,
    }
}

/// The heads of the chassis, the board and the product of an inventory.
fn heads_of(alloc: Global, inventory: &FruView<'_>) -> Result<String, AllocError> {
    let chassis = head_of(inventory.chassis());
    let board = head_of(inventory.board());
    let product = head_of(inventory.product());
    format!(in alloc; "{chassis:?} {board:?} {product:?}")
}

/// Asserts the heads of an inventory.
fn assert_heads(rt: &impl Abort, alloc: Global, digits: &str, wanted: &str) {
    let bytes = bytes_of(rt, alloc, digits);
    let inventory = FruView::read(&bytes).expect(rt, digits);
    assert_text(rt, heads_of(alloc, &inventory), wanted, digits);
}

fn assert_field(rt: &impl Abort, alloc: Global, board: &AreaView<'_>, line: &str) {
    let (place, wanted) = parts(rt, line);
    let place = place.parse::<usize>().expect(rt, line);
    let field = board.field(place);
    assert_text(rt, format!(in alloc; "{field:?}"), wanted, line);
}

/// The first five results of the iterator over the fields of a board.
fn five_fields<'a>(board: &AreaView<'a>) -> [Option<Field<'a>>; 5] {
    let mut fields = board.fields();
    [
        fields.next(),
        fields.next(),
        fields.next(),
        fields.next(),
        fields.next(),
    ]
}

/// Asserts that the first of these is the second field of the board, and the other is not.
fn assert_second_field(rt: &impl Abort, second: &Option<Field<'_>>, third: &Option<Field<'_>>) {
    let wanted = Some(Field {
        code: 1,
        bytes: &[18, 59],
    });
    assert!(rt; *second == wanted, "the second field");
    assert!(rt; *third != wanted, "the third field");
}

/// Asserts the first five results of the iterator over the fields of a board.
fn assert_listed_fields(rt: &impl Abort, alloc: Global, board: &AreaView<'_>, wanted: &str) {
    let fields = five_fields(board);
    assert_text(rt, format!(in alloc; "{fields:?}"), wanted, "fields");
    assert_second_field(rt, &fields[1], &fields[2]);
}

/// Asserts the first four results of the iterator over the records of an inventory.
fn assert_records(rt: &impl Abort, alloc: Global, digits: &str, wanted: &str) {
    let bytes = bytes_of(rt, alloc, digits);
    let inventory = FruView::read(&bytes).expect(rt, digits);
    let mut records = inventory.records();
    let first = [
        records.next(),
        records.next(),
        records.next(),
        records.next(),
    ];
    assert_text(rt, format!(in alloc; "{first:?}"), wanted, digits);
}

#[test]
fn each_area_has_its_head(rt: HostRuntime) {
    let alloc = rt.alloc();
    assert_heads(&rt, alloc, BOARD, "None Some(Ok([0, 1, 0, 0])) None");
    assert_heads(
        &rt,
        alloc,
        CHASSIS_AND_PRODUCT,
        "Some(Ok([23])) None Some(Ok([25]))",
    );
}

fn board_of<'a>(rt: &impl Abort, bytes: &'a [u8]) -> AreaView<'a> {
    let inventory = FruView::read(bytes).expect(rt, "an inventory");
    inventory
        .board()
        .expect(rt, "an area")
        .expect(rt, "a board")
}

/// Asserts the field of each line.
fn assert_fields(rt: &impl Abort, alloc: Global, board: &AreaView<'_>, lines: &str) {
    for line in lines.lines() {
        assert_field(rt, alloc, board, line);
    }
}

#[test]
fn a_board_has_its_fields(rt: HostRuntime) {
    let bytes = bytes_of(&rt, rt.alloc(), BOARD);
    let board = board_of(&rt, &bytes);
    assert_fields(&rt, rt.alloc(), &board, FIELDS);
    assert_listed_fields(&rt, rt.alloc(), &board, LISTED);
}

#[test]
fn a_fault_has_a_name(rt: HostRuntime) {
    let header = FruFault::HeaderVersion.name();
    let area = AreaFault::FieldPastEnd.name();
    let record = MultiFault::DataSum.name();
    let names = format!(in rt.alloc(); "{header}, {area}, {record}");
    assert_text(
        &rt,
        names,
        "header version, field past end, data checksum",
        "names",
    );
}

#[test]
fn records_end_after_the_last_or_a_fault(rt: HostRuntime) {
    let alloc = rt.alloc();
    assert_records(&rt, alloc, BOARD, "[None, None, None, None]");
    assert_records(&rt, alloc, THREE_RECORDS, TWO_RECORDS);
    assert_records(
        &rt,
        alloc,
        WRONG_RECORD,
        "[Some(Err(HeaderSum)), None, None, None]",
    );
}
