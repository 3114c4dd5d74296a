//! Whole answers (docs/clients.md).

/// The statuses with their phrases, each before an end of line (RFC 9110 15).
const STATUSES: &str =
    "200 OK\n201 Created\n400 Bad Request\n403 Forbidden\n404 Not Found\n405 Method Not Allowed\n\
    409 Conflict\n411 Length Required\n413 Content Too Large\n415 Unsupported Media Type\n501 Not Implemented\n\
    503 Service Unavailable\n";

/// The bodies of refusals where store, signer and memory answer.
const REFUSALS: &str =
    "400 BadLength\n400 BadRange\n400 BadReference\n400 BadRequest\n400 SelfGrant\n\
    400 UnknownGroup\n400 UnknownReader\n403 NoAccount\n403 NotAuditor\n403 NotOwner\n403 rule 07\n403 rule 11\n\
    404 NoRoute\n404 NotHere\n405 Method\n409 Conflict\n411 Length\n413 TooLarge\n415 Type\n501 TransferEncoding\n\
    503 rule 10\n";

/// The types of the answers of status 200 and 201.
const TYPES: [&str; 4] = [
    "application/octet-stream",
    "application/timestamp-reply",
    "text/csv",
    "text/plain",
];

/// Whether a text begins with the status and a space.
fn has_status(text: &str, status: u16) -> bool {
    match text.split_once(' ') {
        Some((number, _)) => number.parse() == Ok(status),
        None => false,
    }
}

/// What stands behind a field's name, and the lines after it.
fn field<'t>(text: &'t str, name: &str) -> Option<(&'t str, &'t str)> {
    text.strip_prefix(name)?
        .strip_prefix(": ")?
        .split_once("\r\n")
}

/// What stands behind the status line, if it is that of the status.
fn behind_status(head: &str, status: u16) -> Option<&str> {
    let (line, rest) = head.strip_prefix("HTTP/1.1 ")?.split_once("\r\n")?;
    let is_one = has_status(line, status) && STATUSES.lines().any(|known| known == line);
    is_one.then_some(rest)
}

/// What stands behind the field that tells other methods, where the status is that.
fn behind_allow(fields: &str, status: u16) -> &str {
    match field(fields, "Allow") {
        Some((_, rest)) if status == 405 => rest,
        _ => fields,
    }
}

/// Whether the fields are those of an answer of the status with a body of so many octets: its type.
fn type_of(head: &str, status: u16, length: usize) -> Option<&str> {
    let (kind, rest) = field(behind_status(head, status)?, "Content-Type")?;
    let (count, rest) = field(rest, "Content-Length")?;
    let is_whole = count.parse() == Ok(length)
        && behind_allow(rest, status) == "Connection: close\r\n";
    is_whole.then_some(kind)
}

/// Whether a refusal's body is one that its status may have.
fn is_refusal(status: u16, body: &[u8]) -> bool {
    REFUSALS
        .split_inclusive('\n')
        .any(|text| text.as_bytes() == body && has_status(text, status))
}

/// Where the body begins.
fn body_at(answer: &[u8]) -> Option<usize> {
    let at = answer
        .windows(4)
        .position(|four| four == b"\r\n\r\n".as_slice())?;
    at.checked_add(4)
}

/// Whether octets are one whole answer of a status.
pub fn is_answer(answer: &[u8], status: u16) -> bool {
    let Some((head, body)) = body_at(answer).and_then(|at| answer.split_at_checked(at)) else {
        return false;
    };
    let Ok(text) = str::from_utf8(head) else {
        return false;
    };
    let Some(fields) = text.strip_suffix("\r\n") else {
        return false;
    };
    match type_of(fields, status, body.len()) {
        Some(kind) if status < 300 => TYPES.contains(&kind),
        Some(kind) => kind == "text/plain" && is_refusal(status, body),
        None => false,
    }
}
