//! Streams, and the objects that never fail.
ghost use Rattle.std.specs.Prelude.{◌≡◌, ◌≢◌, AllPairs, IfOk};
ghost use Rattle.outside.specs.Memory.{named_files};

use outside::{Files, Source, StdSink, StdSource, SureFiles, SureSink, SureSource, put_all};
use std::alloc::{AllocError, Global};
use std::str::from_utf8;
use std::test::Fail;

/// Writes how much is read of a file by a call for 5,000 bytes, or the fault.
fn read_front<F: Files>(files: &mut F, name: &str, text: &mut String) -> Result<(), Fail> {
    match files.read_front(*text.allocator(), name, 5000) {
        Ok(front) => write!(text, "{} bytes", front.len())?,
        Err(answer) => write!(text, "{answer:?}")?,
    }
    Ok(())
}

/// Writes what a source gives to so many calls for four bytes.
fn taken<R: Source>(source: &mut R, times: u8, text: &mut String) -> Result<(), Fail> {
    for _ in 0..times {
        let mut buf = [b'-'; 4];
        let count = source.take(&mut buf).unwrap_or(9);
        write!(text, "{count}:{} ", from_utf8(&buf).unwrap_or("?"))?;
    }
    Ok(())
}

#[test]
fn streams_give_at_most_what_is_asked(rt: HostRuntime) -> Result<(), Fail> {
    let mut text = String::new(rt.alloc());
    taken(&mut StdSource::new("abcde".as_bytes()), 3, &mut text)?;
    assert_eq!(rt; text.as_str(), "4:abcd 1:e--- 0:---- ");
    Ok(())
}

#[test]
fn whole_texts_are_put_into_streams(rt: HostRuntime) -> Result<(), Fail> {
    let mut sink = StdSink::new(Vec::new(rt.alloc()));
    assert!(rt; put_all(&mut sink, b"abc").is_ok());
    Ok(())
}

/// The file `plan`.
fn one_file(alloc: Global) -> Result<Vec<(String, Vec<u8>)>, AllocError>
    ensures { IfOk result (λ files. AllPairs (λ a b. a.0 ≢ b.0) (named_files files.items)) }
{
    let mut files = Vec::new(alloc);
    files.push((
        String::from_str(alloc, "plan")?,
        Vec::from_slice(alloc, b"hello")?,
    ))?;
    Ok(files)
}

#[test]
fn sure_objects_are_made_and_asked(rt: HostRuntime) -> Result<(), Fail> {
    let alloc = rt.alloc();
    let mut text = String::new(alloc);
    read_front(&mut SureFiles::new(one_file(alloc)?), "plan", &mut text)?;
    taken(&mut SureSource::new(Vec::new(alloc), 4), 1, &mut text)?;
    put_all(&mut SureSink::new(), b"abc")?;
    assert_eq!(rt; text.as_str(), "5 bytes0:---- ");
    Ok(())
}
