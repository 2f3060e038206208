//! Seals each line of the input: a key, an IV, AAD and a text as hex digits with commas between them.
//! Prints the ciphertext and the tag of each, as hex digits with a comma between them.
#![tactic(auto)]

use aes_block::Key256;
use anyhow::{Context, bail};
use hex::FromHex;
use std::alloc::Global;
use std::io::{self, BufRead, BufReader, BufWriter, Write};
use std::str::Split;

/// The next field of a line.
fn next_field<'a>(fields: &mut Split<'a, char>) -> anyhow::Result<&'a str> {
    fields.next().context("a line has four fields")
}

/// The ciphertext and the tag of what a line names.
fn sealed(alloc: Global, line: &str) -> anyhow::Result<String> {
    let mut fields = line.split(',');
    let key = <[u8; 32] as FromHex>::from_hex(next_field(&mut fields)?)?;
    let iv = <[u8; 12] as FromHex>::from_hex(next_field(&mut fields)?)?;
    let aad = hex::decode(alloc, next_field(&mut fields)?)?;
    let mut text = hex::decode(alloc, next_field(&mut fields)?)?;
    if aad.len() > 65_536 || text.len() > 65_536 {
        bail!("a text has at most 65536 bytes");
    }
    let tag = gcm_seal::seal(&Key256::new(&key), &iv, &aad, &mut text);
    let ciphertext = hex::encode(alloc, text)?;
    let tag = hex::encode(alloc, tag.as_slice())?;
    Ok(format!(in alloc; "{ciphertext},{tag}")?)
}

fn main(rt: HostRuntime) -> anyhow::Result<()> {
    let mut out = BufWriter::new(rt.alloc(), io::writer(&rt))?;
    for line in BufReader::new(rt.alloc(), rt.reader())?.lines(rt.alloc()) {
        let sealed = sealed(rt.alloc(), line?.as_str())?;
        writeln!(out, "{sealed}")?;
    }
    out.flush()?;
    Ok(())
}
