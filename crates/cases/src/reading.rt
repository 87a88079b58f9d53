// The reader on a file of one row, one column and two offers, and on single sections.
use fitfile::{FileRefusal, Kind, OfferRefusal, Part, Section};
use std::test::Fail;

const SINGLE: &[u8] = b"\
    \x01\x00\x00\x00\x01\x00\x00\x00\x02\x00\x00\x00\x20\x00\x00\x00\
    \x28\x00\x00\x00\x30\x00\x00\x00\x20\x00\x00\x00\x70\x00\x00\x00\
    \x00\x00\x00\x01\x00\x00\x00\x00\x00\x00\x00\x03\x00\x00\x00\x00\
    \x01\x00\x00\x00\x00\x00\x00\x00\x00\x00\x00\x01\x00\x00\x00\x00\
    \x00\x00\x80\x02\x00\x00\x00\x00\x00\x00\x00\x00\x00\x00\x00\x00\
    \x02\x00\x00\x00\x00\x00\x00\x00\x00\x00\x80\x01\x00\x00\x00\x00\
    \x00\x00\x00\x03\x00\x00\x00\x00\x00\x00\x00\x00\x00\x00\x00\x00";

// Where a section begins.
fn place(section: Section) -> usize {
    match section {
        Section::Rows(part) | Section::Figures(part) | Section::Offer(part) => part.at,
    }
}

#[test]
fn reads_the_counts(rt: HostRuntime) -> Result<(), Fail> {
    let header = fitfile::header(SINGLE)?;
    assert_eq!(rt; header.rows, 1);
    assert_eq!(rt; header.columns, 1);
    assert_eq!(rt; header.offers, 2);
    Ok(())
}

#[test]
fn cuts_the_rows_and_the_figures(rt: HostRuntime) -> Result<(), Fail> {
    let rows = fitfile::rows(SINGLE)?;
    assert_eq!(rt; place(rows), 32);
    assert_eq!(rt; rows.number(0), Some(16_777_216));
    assert_eq!(rt; rows.number(1), None);
    let figures = fitfile::figures(SINGLE)?;
    assert_eq!(rt; place(figures), 40);
    assert_eq!(rt; figures.number(0), Some(50_331_648));
    assert_eq!(rt; figures.number(1), None);
    Ok(())
}

#[test]
fn cuts_the_offers(rt: HostRuntime) -> Result<(), Fail> {
    let first = fitfile::offer(SINGLE, 0)?.ok_or("no first offer")?;
    assert_eq!(rt; place(first), 48);
    assert_eq!(rt; first.number(0), Some(16_777_216));
    assert_eq!(rt; first.number(1), Some(41_943_040));
    assert_eq!(rt; first.number(2), Some(0));
    assert_eq!(rt; first.number(3), None);
    assert_eq!(rt; first.number(usize::MAX), None);
    let second = fitfile::offer(SINGLE, 1)?.ok_or("no second offer")?;
    assert_eq!(rt; place(second), 80);
    assert_eq!(rt; second.number(0), Some(25_165_824));
    assert!(rt; fitfile::offer(SINGLE, 2)?.is_none());
    assert!(rt; fitfile::offer(SINGLE, usize::MAX)?.is_none());
    Ok(())
}

#[test]
fn reads_negative_numbers(rt: HostRuntime) {
    let bytes: &[u8] =
        b"\xff\xff\xff\xff\xff\xff\xff\xff\0\0\0\0\0\0\0\x80\xfe\xff\xff\xff\xff\xff\xff\xff\0";
    let section = Section::Figures(Part { at: 0, bytes });
    assert_eq!(rt; section.number(0), Some(-1));
    assert_eq!(rt; section.number(1), Some(i64::MIN));
    assert_eq!(rt; section.number(2), Some(-2));
    assert_eq!(rt; section.number(3), None);
}

#[test]
fn tells_the_kinds(rt: HostRuntime) {
    let ends: &[u8] = b"\x01\0\0\0\0\0\0\0";
    assert_eq!(rt; Kind::try_from(ends), Ok(Kind::Ends));
    let centre: &[u8] = b"\x02\0\0\0\0\0\0\0and more";
    assert_eq!(rt; Kind::try_from(centre), Ok(Kind::Centre));
    let refused: [&[u8]; 6] = [
        b"\0\0\0\0\0\0\0\0",
        b"\x03\0\0\0\0\0\0\0",
        b"\x01\x01\0\0\0\0\0\0",
        b"\x01\0\0\0\x01\0\0\0",
        b"\x02\0\0\0\0\0\0\x80",
        b"\x01\0\0\0\0\0\0",
    ];
    for bytes in refused {
        assert_eq!(rt; Kind::try_from(bytes), Err(OfferRefusal::UnknownKind));
    }
}

#[test]
fn refuses_sections_of_a_refused_file(rt: HostRuntime) {
    let cut: &[u8] = b"\x01\0\0\0";
    assert_eq!(rt; fitfile::rows(cut).err(), Some(FileRefusal::WrongLength));
    assert_eq!(rt; fitfile::figures(cut).err(), Some(FileRefusal::WrongLength));
    assert_eq!(rt;
        fitfile::offer(cut, 0).err(),
        Some(FileRefusal::WrongLength)
    );
}

#[test]
fn numbers_the_refusals(rt: HostRuntime) {
    assert_eq!(rt; u8::from(FileRefusal::WrongLength), 20);
    assert_eq!(rt; u8::from(FileRefusal::CountOutOfRange), 21);
    assert_eq!(rt; u8::from(FileRefusal::WrongLayout), 22);
    assert_eq!(rt; u8::from(OfferRefusal::UnknownKind), 23);
}
