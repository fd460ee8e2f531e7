//! A law of BLAKE2b's definition: the contract of a function that does nothing.
ghost use Rattle.blake2b_core.specs.Laws.{HasVectors};

/// Known digests. That of `abc` is in RFC 7693, appendix A. Those of the empty message, of 64 and of 32 bytes, are
/// those that GNU b2sum and Python's hashlib compute.
#[tactic(auto, unfolding(crate::specs::Compression::mix, crate::specs::Compression::round, crate::specs::Compression::work_vector, crate::specs::Compression::compress, crate::specs::Digest::hash_after, crate::specs::Digest::blake2b))]
pub fn vectors()
    ensures digests { HasVectors }
{}
