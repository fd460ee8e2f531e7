//! Calls of sinks, as the tests make them. They have no contracts, so that a test knows no more of a result than it
//! sees, which keeps its proof short.

use std::alloc::Global;
use std::test::Fail;
use sum_lines::{Buffered, Sink, SinkFault, ToldSink, put_all};

pub(crate) fn offer(sink: &mut impl Sink, piece: &[u8]) -> Result<usize, SinkFault> {
    sink.write(piece)
}

pub(crate) fn put(sink: &mut Buffered<impl Sink>, bytes: &[u8]) -> Result<(), SinkFault> {
    put_all(sink, bytes)
}

pub(crate) fn flush(sink: &mut Buffered<impl Sink>) -> Result<(), SinkFault> {
    sink.flush()
}

// A buffer over a sink in memory that stops after this many bytes.
pub(crate) fn known_sink(stop: usize) -> Buffered<ToldSink<256>> {
    Buffered::new(ToldSink::new(stop))
}

// Digests by their names in a text: MD5 of `abc` and of nothing, SHA-256 of `abc`, and BLAKE2b of nothing, of 32 bytes
// and of 64.
const DIGESTS: &[(&str, &str)] = &[
    ("$M", "900150983cd24fb0d6963f7d28e17f72"),
    ("$E", "d41d8cd98f00b204e9800998ecf8427e"),
    (
        "$S",
        "ba7816bf8f01cfea414140de5dae2223b00361a396177a9cb410ff61f20015ad",
    ),
    (
        "$B",
        "0e5751c026e543b2e8ab2eb06099daa1d1e5df47778f7787faab45cdf12fe3a8",
    ),
    (
        "$L",
        "786a02f742015903c6c6fd852552d272912f4740e15847618a86e217f71f5419\
         d25e1031afee585313896444934eb04b903a685b1448b755d56f701afe9be2ce",
    ),
];

fn replaced(alloc: Global, text: &str, name: &str, digest: &str) -> Result<String, Fail> {
    Ok(text.replace(alloc, name, digest)?)
}

// The text, with digests in place of their names.
pub(crate) fn spell(alloc: Global, text: &str) -> Result<String, Fail> {
    let mut all = String::from_str(alloc, text)?;
    for (name, digest) in DIGESTS {
        all = replaced(alloc, all.as_str(), name, digest)?;
    }
    Ok(all)
}
