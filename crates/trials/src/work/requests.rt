//! Readings of a request.
use crate::work::setting::REQUEST;
use tsp::read_request;

/// Where an octet of the digest stands.
const DIGEST_OCTET: usize = 40;

/// How many of so many readings find a request with that digest. The digest is another one each time, so that each
/// reading is done.
pub fn readings(count: u64) -> u64 {
    let mut octets = REQUEST;
    let mut found = 0u64;
    for round in 0..count {
        octets[DIGEST_OCTET] = (round % 256) as u8;
        if let Ok(request) = read_request(&octets) {
            found = found.saturating_add(u64::from(
                request.cert_req() && request.hash().len() == 32,
            ));
        }
    }
    found
}
