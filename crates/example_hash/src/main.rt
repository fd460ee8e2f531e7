//! Prints the BLAKE2b digest of standard input, of 64 bytes, in hexadecimal digits.
#![tactic(auto)]

use blake2b_core::Blake2b;
use std::io::{self, ErrorKind, Read};

fn main(rt: HostRuntime) -> io::Result<()> {
    let mut input = rt.stdin();
    let mut buffer = [0; 8192];
    let Some(mut hasher) = Blake2b::new(64) else {
        return Err(ErrorKind::InvalidInput.into());
    };
    for _ in 0..u64::MAX {
        let count = input.read(&mut buffer)?;
        if count == 0 {
            break;
        }
        if hasher.try_update(&buffer[..count]).is_err() {
            return Err(ErrorKind::FileTooLarge.into());
        }
    }
    println!(rt; "{}", hex::encode(rt.alloc(), hasher.finish().as_slice())?)
}
