//! Association requests: how they are judged, which of their contexts are accepted, and the
//! A-ASSOCIATE-AC or A-ASSOCIATE-RJ in reply, byte by byte and in one send.
use crate::counting_wire::CountingWire;
use arrayvec::ArrayVec;
use cases::{Case, Parts, cases};
use dictionary::{Transfer, storage_class};
use element::{AeTitle, Uid};
use negotiate::{
    Config, Context, ContextRow, MOST_NAMED, Service, answer_size, compact, context, context_of,
    judge, write_answer,
};
use pdu::{Request, read_request};
use std::alloc::{AllocError, Global};
use std::test::Fail;

/// A private storage class.
const PRIVATE: &[u8] = b"1.2.826.0.1.3680043.2.1143.1";

/// The fixed part of a request, its items and their parts, whole requests, and the user information
/// of replies. `dicos` is the SOP Class of DICOS CT images, which is not in the standard's table;
/// the class of reports is the table's 104th. Of `refused` only the third context is accepted.
static PARTS: &str = "
fixed | 00 01 00 00 'DCMBOX          SCANNER1        ' 00*32
application | 10 00 00 15 '1.2.840.10008.3.1.1.1'
user | 50 00 00 11 51 00 00 04 00 00 40 00 52 00 00 05 '1.2.3'
implicit | 40 00 00 11 '1.2.840.10008.1.2'
explicit | 40 00 00 13 '1.2.840.10008.1.2.1'
big-endian | 40 00 00 13 '1.2.840.10008.1.2.2'
jpeg | 40 00 00 16 '1.2.840.10008.1.2.4.50'
lossless | 40 00 00 16 '1.2.840.10008.1.2.4.70'
verification | 30 00 00 11 '1.2.840.10008.1.1'
ct | 30 00 00 19 '1.2.840.10008.5.1.4.1.1.2'
mammography | 30 00 00 1b '1.2.840.10008.5.1.4.1.1.1.2'
report | 30 00 00 1d '1.2.840.10008.5.1.4.1.1.88.33'
private | 30 00 00 1c '1.2.826.0.1.3680043.2.1143.1'
dicos | 30 00 00 1d '1.2.840.10008.5.1.4.1.1.501.1'
echo-context | 20 00 00 2e 01 00*3 verification implicit
echo | fixed application echo-context user
refused | 00 01 00 00 ' DCMBOX         SCANNER1        ' 00*32 application 20 00 00 3b 01 00*3 \
    ct jpeg 20 00 00 38 03 00*3 ct big-endian 20 00 00 4d 05 00*3 ct implicit explicit 20 00 \
    00 3a 07 00*3 mammography explicit 50 00 00 11 51 00 00 04 00 00 00 00 52 00 00 05 '1.2.3'
mixed | fixed application 20 00 00 38 01 00*3 ct explicit 20 00 00 51 03 00*3 report implicit \
    explicit 20 00 00 3b 05 00*3 private explicit 20 00 00 3f 07 00*3 report jpeg 20 00 00 3c \
    09 00*3 dicos explicit user
compressed | fixed application 20 00 00 3b 01 00*3 ct jpeg 20 00 00 50 03 00*3 ct jpeg \
    implicit 20 00 00 55 05 00*3 ct lossless jpeg user
our-user | 50 00 00 25 51 00 00 04 00 00 40 00 52 00 00 0d '2.25.20260101' 55 00 00 08 \
    'DCMBOX_1'
";

/// The settings: the only title that may call or `any`, storage classes accepted besides the
/// eleven, a compressed transfer syntax, a maximum. The request's body. Then, each if not empty:
/// how the request is judged; the accepted contexts; the number of rows in their table; the reply;
/// and the rows.
static REQUESTS: &str = "
the recorded echo | SCANNER1 | echo | | 1 Known(Verification) Implicit | 1 | 02 00 00 00 00 a3 \
    00 01 00 00 'DCMBOX          SCANNER1        ' 00*32 application 21 00 00 19 01 00 00 00 \
    implicit our-user |
another version | SCANNER1 | 00 02 00 00 'DCMBOX          SCANNER1        ' 00*32 application \
    echo-context 50 00 00 11 51 00 00 04 00 00 40 00 52 00 00 05 '1.2.3' | | | | 03 00 00 00 \
    00 04 00 01 02 02 |
accepted and rejected contexts | any 66051 | refused | | | | 02 00 00 00 00 fc 00 01 00 00 \
    ' DCMBOX         SCANNER1        ' 00*32 application 21 00 00 19 01 00 04 00 implicit 21 \
    00 00 19 03 00 04 00 implicit 21 00 00 1b 05 00 00 00 explicit 21 00 00 19 07 00 03 00 \
    implicit 50 00 00 25 51 00 00 04 00 01 02 03 52 00 00 0d '2.25.20260101' 55 00 00 08 \
    'DCMBOX_1' |
contexts of which one is accepted | SCANNER1 | refused | | 5 Known(Ct) Explicit | 1 | | \
    [ContextRow { id: 5, class: Known(Ct), syntax: Explicit }]
many contexts | SCANNER1 | fixed application many user | | \
    1 Known(Ct) Explicit, 3 Known(Ct) Explicit, 5 Known(Ct) Explicit, 7 Known(Ct) Explicit, \
    9 Known(Ct) Explicit, 11 Known(Ct) Explicit, 13 Known(Ct) Explicit, 15 Known(Ct) Explicit, \
    17 Known(Ct) Explicit, 19 Known(Ct) Explicit, 21 Known(Ct) Explicit, \
    23 Known(Ct) Explicit, 25 Known(Ct) Explicit, 27 Known(Ct) Explicit, \
    29 Known(Ct) Explicit, 31 Known(Ct) Explicit, 33 Known(Ct) Explicit, \
    35 Known(Ct) Explicit, 37 Known(Ct) Explicit, 39 Known(Ct) Explicit, \
    41 Known(Ct) Explicit, 43 Known(Ct) Explicit, 45 Known(Ct) Explicit, \
    47 Known(Ct) Explicit, 49 Known(Ct) Explicit, 51 Known(Ct) Explicit, \
    53 Known(Ct) Explicit, 55 Known(Ct) Explicit, 57 Known(Ct) Explicit, \
    59 Known(Ct) Explicit, 61 Known(Ct) Explicit, 63 Known(Ct) Explicit, \
    65 Known(Ct) Explicit, 67 Known(Ct) Explicit, 69 Known(Ct) Explicit, \
    71 Known(Ct) Explicit, 73 Known(Ct) Explicit, 75 Known(Ct) Explicit, \
    77 Known(Ct) Explicit, 79 Known(Ct) Explicit, 81 Known(Ct) Explicit, \
    83 Known(Ct) Explicit, 85 Known(Ct) Explicit, 87 Known(Ct) Explicit, \
    89 Known(Ct) Explicit, 91 Known(Ct) Explicit, 93 Known(Ct) Explicit, \
    95 Known(Ct) Explicit, 97 Known(Ct) Explicit, 99 Known(Ct) Explicit, \
    101 Known(Ct) Explicit, 103 Known(Ct) Explicit, 105 Known(Ct) Explicit, \
    107 Known(Ct) Explicit, 109 Known(Ct) Explicit, 111 Known(Ct) Explicit, \
    113 Known(Ct) Explicit, 115 Known(Ct) Explicit, 117 Known(Ct) Explicit, \
    119 Known(Ct) Explicit, 121 Known(Ct) Explicit, 123 Known(Ct) Explicit, \
    125 Known(Ct) Explicit, 127 Known(Ct) Explicit, 129 Known(Ct) Explicit, \
    131 Known(Ct) Explicit, 133 Known(Ct) Explicit, 135 Known(Ct) Explicit, \
    137 Known(Ct) Explicit, 139 Known(Ct) Explicit, 141 Known(Ct) Explicit, \
    143 Known(Ct) Explicit, 145 Known(Ct) Explicit, 147 Known(Ct) Explicit, \
    149 Known(Ct) Explicit, 151 Known(Ct) Explicit, 153 Known(Ct) Explicit, \
    155 Known(Ct) Explicit, 157 Known(Ct) Explicit, 159 Known(Ct) Explicit, \
    161 Known(Ct) Explicit, 163 Known(Ct) Explicit, 165 Known(Ct) Explicit, \
    167 Known(Ct) Explicit, 169 Known(Ct) Explicit, 171 Known(Ct) Explicit, \
    173 Known(Ct) Explicit, 175 Known(Ct) Explicit, 177 Known(Ct) Explicit, \
    179 Known(Ct) Explicit, 181 Known(Ct) Explicit, 183 Known(Ct) Explicit, \
    185 Known(Ct) Explicit, 187 Known(Ct) Explicit, 189 Known(Ct) Explicit, \
    191 Known(Ct) Explicit, 193 Known(Ct) Explicit, 195 Known(Ct) Explicit, \
    197 Known(Ct) Explicit, 199 Known(Ct) Explicit, 201 Known(Ct) Explicit, \
    203 Known(Ct) Explicit, 205 Known(Ct) Explicit, 207 Known(Ct) Explicit, \
    209 Known(Ct) Explicit, 211 Known(Ct) Explicit, 213 Known(Ct) Explicit, \
    215 Known(Ct) Explicit, 217 Known(Ct) Explicit, 219 Known(Ct) Explicit, \
    221 Known(Ct) Explicit, 223 Known(Ct) Explicit, 225 Known(Ct) Explicit, \
    227 Known(Ct) Explicit, 229 Known(Ct) Explicit, 231 Known(Ct) Explicit, \
    233 Known(Ct) Explicit, 235 Known(Ct) Explicit, 237 Known(Ct) Explicit, \
    239 Known(Ct) Explicit, 241 Known(Ct) Explicit, 243 Known(Ct) Explicit, \
    245 Known(Ct) Explicit, 247 Known(Ct) Explicit, 249 Known(Ct) Explicit, \
    251 Known(Ct) Explicit, 253 Known(Ct) Explicit, 255 Known(Ct) Explicit | 128 | \
    02 00 00 00 10 06 00 01 00 00 'DCMBOX          SCANNER1        ' 00*32 application \
    many-accepted our-user |
the eleven alone | SCANNER1 | mixed | | 1 Known(Ct) Explicit | 1 | |
the eleven alone, with a setting | SCANNER1 none | mixed | | 1 Known(Ct) Explicit | 1 | |
every class of the table | SCANNER1 all | mixed | | 1 Known(Ct) Explicit, 3 \
    1.2.840.10008.5.1.4.1.1.88.33 Explicit | 2 | 02 00 00 00 01 1b 00 01 00 00 \
    'DCMBOX          SCANNER1        ' 00*32 application 21 00 00 1b 01 00 00 00 explicit 21 \
    00 00 1b 03 00 00 00 explicit 21 00 00 19 05 00 03 00 implicit 21 00 00 19 07 00 04 00 \
    implicit 21 00 00 19 09 00 03 00 implicit our-user |
a class by its name | SCANNER1 private | mixed | | 1 Known(Ct) Explicit, 5 \
    1.2.826.0.1.3680043.2.1143.1 Explicit | 2 | |
a class by its name, twice | SCANNER1 private private | mixed | | 1 Known(Ct) Explicit, 5 \
    1.2.826.0.1.3680043.2.1143.1 Explicit | 2 | |
rows have places | SCANNER1 all private | mixed | | 1 Known(Ct) Explicit, \
    3 1.2.840.10008.5.1.4.1.1.88.33 Explicit, 5 1.2.826.0.1.3680043.2.1143.1 Explicit | 3 | | \
    [ContextRow { id: 1, class: Known(Ct), syntax: Explicit }, \
    ContextRow { id: 3, class: Additional(122), syntax: Explicit }, \
    ContextRow { id: 5, class: Additional(0), syntax: Explicit }]
as many classes as contexts | SCANNER1 all | fixed application first-classes user | | | 128 | |
ten of the eleven in as many classes | SCANNER1 | fixed application first-classes user | | | 10 | |
no compressed syntax | SCANNER1 | compressed | | 3 Known(Ct) Implicit | 1 | |
a compressed syntax by its name | SCANNER1 jpeg | compressed | | 1 Known(Ct) JpegBaseline8Bit, \
    3 Known(Ct) Implicit, 5 Known(Ct) JpegBaseline8Bit | 3 | |
rejected for its version | SCANNER1 | 00 02 00 00 'OTHER           SCANNER1        ' 00*32 10 \
    00 00 11 '1.2.840.10008.1.1' echo-context 50 00 00 11 51 00 00 04 00 00 00 01 52 00 00 05 \
    '1.2.3' | Reject(1, 2, 2) | | | |
rejected for its application context | SCANNER1 | 00 01 00 00 \
    'OTHER           SCANNER1        ' 00*32 10 00 00 11 '1.2.840.10008.1.1' echo-context 50 \
    00 00 11 51 00 00 04 00 00 00 01 52 00 00 05 '1.2.3' | Reject(1, 1, 2) | | | |
called by a further title | SCANNER1 also | 00 01 00 00 'ARCHIVE         SCANNER1        ' 00*32 \
    application echo-context 50 00 00 11 51 00 00 04 00 00 40 00 52 00 00 05 '1.2.3' | Accept | | | |
called by its own title beside another | SCANNER1 also | echo | Accept | | | |
rejected for its called title | SCANNER1 also | 00 01 00 00 'OTHER           SCANNER1        ' 00*32 \
    application echo-context 50 00 00 11 51 00 00 04 00 00 40 00 52 00 00 05 '1.2.3' | \
    Reject(1, 1, 7) | | | |
called by any title | SCANNER1 any-called | 00 01 00 00 'OTHER           SCANNER1        ' 00*32 \
    application echo-context 50 00 00 11 51 00 00 04 00 00 40 00 52 00 00 05 '1.2.3' | Accept | | | |
rejected for its calling title | SCANNER2 | 00 01 00 00 'DCMBOX          SCANNER1        ' \
    00*32 application echo-context 50 00 00 11 51 00 00 04 00 00 00 01 52 00 00 05 '1.2.3' | \
    Reject(1, 1, 3) | | | |
rejected for its least maximum | SCANNER1 | 00 01 00 00 'DCMBOX          SCANNER1        ' \
    00*32 application echo-context 50 00 00 11 51 00 00 04 00 00 00 01 52 00 00 05 '1.2.3' | \
    Reject(1, 1, 1) | | | |
rejected for its maximum | SCANNER1 | 00 01 00 00 'DCMBOX          SCANNER1        ' 00*32 \
    application echo-context 50 00 00 11 51 00 00 04 00 00 00 07 52 00 00 05 '1.2.3' | \
    Reject(1, 1, 1) | | | |
accepted with the least maximum | SCANNER1 | 00 01 00 00 'DCMBOX          SCANNER1        ' \
    00*32 application echo-context 50 00 00 11 51 00 00 04 00 00 00 08 52 00 00 05 '1.2.3' | \
    Accept | | | |
accepted of anyone, in a later version | any 1024 | 00 03 00 00 \
    'DCMBOX          SCANNER1        ' 00*32 application echo-context 50 00 00 11 51 00 00 04 \
    00 00 00 00 52 00 00 05 '1.2.3' | Accept | | | |
";

/// Returns the configuration with these storage classes besides the eleven.
fn accepting(config: Config, all_storage: bool, named: &[Uid]) -> Config {
    if named.len() > MOST_NAMED {
        return config;
    }
    config.with_storage(all_storage, named)
}

/// Returns the configuration of DCMBOX with this caller, unless it is `any`, and this maximum.
fn box_of(alloc: Global, caller: &str, max_pdu: u32) -> Result<Config, Fail> {
    let max_data = Config::DEFAULT_MAX_DATA;
    let ae = AeTitle(*b"DCMBOX          ");
    let config = Config::new(ae, max_pdu.max(1024), max_data);
    if caller == "any" {
        return Ok(config);
    }
    let mut callers = Vec::new(alloc);
    callers.push(AeTitle::of_text(caller).ok_or("title")?)?;
    Ok(config.with_callers(callers))
}

/// The private class, twice.
fn private_twice() -> Result<[Uid; 2], Fail> {
    Ok([
        Uid::read(PRIVATE).ok_or("uid")?,
        Uid::read(PRIVATE).ok_or("uid")?,
    ])
}

/// Returns the configuration of DCMBOX with these settings.
fn config_of(alloc: Global, settings: &str) -> Result<Config, Fail> {
    let caller = settings.split_whitespace().next().unwrap_or("any");
    let last = settings.split_whitespace().last().unwrap_or("");
    let twice = private_twice()?;
    let known = box_of(
        alloc,
        caller,
        last.parse().unwrap_or(Config::DEFAULT_MAX_PDU),
    )?;
    let all = settings.contains(" all");
    Ok(if settings.contains(" private private") {
        accepting(known, all, &twice)
    } else if settings.contains(" private") {
        accepting(known, all, &twice[..1])
    } else if all || settings.contains(" none") {
        accepting(known, all, &[])
    } else if settings.contains(" also") {
        let mut also = ArrayVec::new();
        also.push(AeTitle(*b"ARCHIVE         "));
        known.with_called(also, false)
    } else if settings.contains(" any-called") {
        known.with_called(ArrayVec::new(), true)
    } else if settings.contains(" jpeg") {
        known.with_transfers(&[Transfer::JpegBaseline8Bit])
    } else {
        known
    })
}

/// Appends an accepted context to a text.
fn put_context(
    alloc: Global,
    text: &mut String,
    id: u8,
    accepted: Option<Context>,
) -> Result<(), AllocError> {
    let Some(Context { class, syntax }) = accepted else {
        return Ok(());
    };
    if !text.is_empty() {
        text.push_str(", ")?;
    }
    let shown = match class {
        Service::Known(class) => format!(in alloc; "{id} Known({class:?}) {syntax:?}")?,
        Service::Additional(uid) => {
            let uid = str::from_utf8(uid.as_bytes()).unwrap_or("?");
            format!(in alloc; "{id} {uid} {syntax:?}")?
        }
    };
    text.push_str(shown.as_str())
}

/// Returns the accepted contexts of a request, found from the request and from the table of them,
/// and the table.
fn contexts_of(
    alloc: Global,
    config: &Config,
    request: &Request,
) -> Result<(String, String, ArrayVec<ContextRow, 128>), AllocError> {
    let mut table = ArrayVec::new();
    compact(config, request, &mut table);
    let (mut of_request, mut of_table) = (String::new(alloc), String::new(alloc));
    for id in 0..=255u8 {
        put_context(alloc, &mut of_request, id, context(config, request, id))?;
        put_context(
            alloc,
            &mut of_table,
            id,
            context_of(config, table.as_slice(), id),
        )?;
    }
    Ok((of_request, of_table, table))
}

/// Fails with the name of the test case unless the field at this index is `found` or empty.
fn expect(case: &Case, index: usize, found: &str) -> Result<(), Fail> {
    if case.field(index)?.is_empty() {
        return Ok(());
    }
    case.expect(index, found)
}

/// Fails with the name of the test case unless a request is judged, and its contexts are accepted,
/// as the test case states.
fn is_judged(alloc: Global, case: &Case, config: &Config, request: &Request) -> Result<(), Fail> {
    let judged = judge(config, request);
    expect(case, 2, format!(in alloc; "{judged:?}")?.as_str())?;
    let (of_request, of_table, table) = contexts_of(alloc, config, request)?;
    expect(case, 3, of_request.as_str())?;
    expect(case, 4, format!(in alloc; "{}", table.len())?.as_str())?;
    expect(
        case,
        6,
        format!(in alloc; "{:?}", table.as_slice())?.as_str(),
    )?;
    if of_request.as_str() != of_table.as_str() {
        return Err(case.fails("the table has other contexts"));
    }
    Ok(())
}

/// Fails with the name of the test case unless a request gets the reply of the test case, in one
/// send of `answer_size` bytes.
fn is_answered(
    alloc: Global,
    parts: &Parts,
    case: &Case,
    config: &Config,
    request: &Request,
) -> Result<(), Fail> {
    if case.field(5)?.is_empty() {
        return Ok(());
    }
    let mut wire = CountingWire::new(alloc);
    let is_sent = write_answer(config, request, &mut wire).is_ok();
    parts.expect(case, 5, wire.wire.sent())?;
    if !is_sent || wire.sends != 1 || answer_size(config, request) != wire.wire.sent().len() {
        return Err(case.fails("is sent otherwise"));
    }
    Ok(())
}

/// Returns 128 items, each of this head, an odd number and this tail.
fn numbered(alloc: Global, head: &[u8], tail: &[u8]) -> Result<Vec<u8>, AllocError> {
    let mut items = Vec::new(alloc);
    for number in 0..128u8 {
        items.extend_from_slice(head)?;
        items.push(2 * number + 1)?;
        items.extend_from_slice(tail)?;
    }
    Ok(items)
}

/// Returns a context for each of the first 128 rows of the standard's table.
fn first_classes(alloc: Global) -> Result<Vec<u8>, Fail> {
    let mut items = Vec::new(alloc);
    for index in 0..128u8 {
        let uid = storage_class(index as usize).ok_or("class")?.uid;
        let size = u8::try_from(uid.len()).unwrap_or(0);
        let whole = size.saturating_add(31);
        items.extend_from_slice(&[0x20, 0, 0, whole, 2 * index + 1, 0, 0, 0, 0x30, 0, 0, size])?;
        items.extend_from_slice(uid)?;
        items.extend_from_slice(b"\x40\0\0\x131.2.840.10008.1.2.1")?;
    }
    Ok(items)
}

/// Returns the parts above, and many contexts.
fn all_parts(alloc: Global) -> Result<Parts<'static>, Fail> {
    let ct = b"\0\0\0\x30\0\0\x191.2.840.10008.5.1.4.1.1.2\x40\0\0\x131.2.840.10008.1.2.1";
    let accepted = b"\0\0\0\x40\0\0\x131.2.840.10008.1.2.1";
    let mut parts = Parts::read(alloc, PARTS, 20)?;
    parts.add("many", numbered(alloc, &[0x20, 0, 0, 0x38], ct)?)?;
    parts.add(
        "many-accepted",
        numbered(alloc, &[0x21, 0, 0, 0x1b], accepted)?,
    )?;
    parts.add("first-classes", first_classes(alloc)?)?;
    Ok(parts)
}

/// Fails with the name of the test case unless its request has the stated outcome with its
/// settings.
fn arrives(alloc: Global, parts: &Parts, case: &Case) -> Result<(), Fail> {
    let config = config_of(alloc, case.field(0)?)?;
    let body = parts.bytes(case, 1)?;
    let request = read_request(body.as_slice())?;
    is_judged(alloc, case, &config, &request)?;
    is_answered(alloc, parts, case, &config, &request)
}

#[test]
fn requests(rt: HostRuntime) -> Result<(), Fail> {
    let parts = all_parts(rt.alloc())?;
    for case in cases(rt.alloc(), REQUESTS, 26)?.as_slice() {
        arrives(rt.alloc(), &parts, case)?;
    }
    Ok(())
}

#[test]
fn the_size_of_a_row(rt: HostRuntime) {
    assert!(rt; size_of::<ContextRow>() == 4);
}
