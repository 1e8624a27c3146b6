// The files of requests: a line `CYCLE SEAT LD|ST|IFETCH LINE OFFSET SIZE BYTE` for each.
use ruby_base::NoMemory;
use sequencer::{Ask, Asked, Issued};
use std::alloc::Global;

fn kind_of(word: &str) -> Option<Ask> {
    match word {
        "LD" => Some(Ask::Load),
        "ST" => Some(Ask::Store),
        "IFETCH" => Some(Ask::Fetch),
        _ => None,
    }
}

// The request that the words of a line say, if they say one.
fn request_of(words: &[&str]) -> Option<Issued> {
    let [issued, seat, kind, line, offset, size, byte, ..] = words else {
        return None;
    };
    let kind = kind_of(kind)?;
    let issued = issued.parse::<u64>().ok()?;
    let seat = seat.parse::<u32>().ok()?;
    let line = line.parse::<u64>().ok()?;
    let offset = offset.parse::<u8>().ok()?;
    let size = size.parse::<u8>().ok()?;
    let byte = byte.parse::<u8>().ok()?;
    let asked = Asked {
        line,
        kind,
        offset,
        size,
        byte,
        issued,
    };
    Some(Issued { seat, asked })
}

// Adds the request that a line says, if it says one.
fn add_request(alloc: Global, line: &str, requests: &mut Vec<Issued>) -> Result<(), NoMemory> {
    let words: Vec<&str> = line.split_whitespace().collect(alloc)?;
    let request = request_of(words.as_slice());
    drop(words);
    if let Some(request) = request {
        requests.push(request)?;
    }
    Ok(())
}

/// The requests of a file, in their order. A line that says none, as a comment, is passed over.
pub fn requests_of(alloc: Global, text: &str) -> Result<Vec<Issued>, NoMemory> {
    let mut requests = Vec::new(alloc);
    for line in text.lines() {
        add_request(alloc, line, &mut requests)?;
    }
    Ok(requests)
}
