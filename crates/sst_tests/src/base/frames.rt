// Frames, headers and streams over devices that move a byte a call, and fail at one.
use crate::base::devices::{Failure, SlowFile, SlowReader, SlowWriter};
use sst_base::checksum::{ChecksummedReader, ChecksummedWriter};
use sst_base::hash::ByteSum;
use sst_base::table::block::{Block, BlockHandle, BlockOffset, BlockType, Header};
use sst_base::{Checksum, Error, Result};
use std::alloc::Global;
use std::io::{Read, Write};

// The frame of `abc`.
const ABC: [u8; 36] = [
    0x4c, 0x53, 0x4d, 0x03, 0x00, 0x26, 0x01, 0, 0, 0, 0, 0, 0, 0, 0, 0, 0, 0, 0, 0, 0, 3, 0, 0, 0,
    3, 0, 0, 0, 0x1c, 0x01, 0, 0, 0x61, 0x62, 0x63,
];

// The header of a frame whose lengths are 2^32 - 1, and some bytes after it.
const TOO_LONG: [u8; 36] = [
    0x4c, 0x53, 0x4d, 0x03, 0x00, 5, 0, 0, 0, 0, 0, 0, 0, 0, 0, 0, 0, 0, 0, 0, 0, 0xff, 0xff, 0xff,
    0xff, 0xff, 0xff, 0xff, 0xff, 0xec, 0x08, 0, 0, 0x61, 0x62, 0x63,
];

// The header of `abc`.
fn abc_header() -> Header {
    Header {
        block_type: BlockType::Data,
        checksum: Checksum::from_raw(294),
        data_length: 3,
        uncompressed_length: 3,
    }
}

// The header of a block that was read, if its payload is `abc`.
fn header_of(block: Result<Block>) -> Result<Header> {
    let block = block?;
    if block.data().eq_bytes(b"abc") {
        Ok(*block.header())
    } else {
        Err(Error::TooLong)
    }
}

#[test]
fn a_false_length_asks_for_little(rt: HostRuntime) {
    let mut reader = SlowReader::new(&TOO_LONG, usize::MAX);
    let block = Block::from_reader::<ByteSum, SlowReader<'_>>(rt.alloc(), &mut reader);
    assert!(rt; header_of(block) == Err(Error::Io) && reader.most == 65536);
}

// What is moved: the frame of `abc`, or its header alone.
#[derive(Clone, Copy)]
enum Moved {
    Frame,
    Header,
}

// A device that moves a byte a call.
#[derive(Clone, Copy)]
enum Device {
    // A writer that fails like this.
    Writer(Failure),
    // A reader.
    Reader,
    // A file, which is read by a handle.
    File,
}

// The calls of a whole run over each device, those that move a file included.
const DEVICES: [(&str, Device, Moved, usize); 7] = [
    (
        "frame, error",
        Device::Writer(Failure::Error),
        Moved::Frame,
        36,
    ),
    (
        "frame, no byte",
        Device::Writer(Failure::NoByte),
        Moved::Frame,
        36,
    ),
    (
        "header, error",
        Device::Writer(Failure::Error),
        Moved::Header,
        33,
    ),
    (
        "header, no byte",
        Device::Writer(Failure::NoByte),
        Moved::Header,
        33,
    ),
    ("frame from a reader", Device::Reader, Moved::Frame, 36),
    ("header from a reader", Device::Reader, Moved::Header, 33),
    ("frame from a file", Device::File, Moved::Frame, 37),
];

// Writes the frame of `abc`, or its header.
fn write_to(to: &mut SlowWriter, moved: Moved) -> Result<Header> {
    match moved {
        Moved::Frame => Block::write_into::<ByteSum, SlowWriter>(to, b"abc", BlockType::Data),
        Moved::Header => {
            abc_header().encode_into::<ByteSum, SlowWriter>(to)?;
            Ok(abc_header())
        }
    }
}

// Reads the frame of `abc`, or its header.
fn read_from(alloc: Global, from: &mut SlowReader<'_>, moved: Moved) -> Result<Header> {
    match moved {
        Moved::Frame => header_of(Block::from_reader::<ByteSum, SlowReader<'_>>(alloc, from)),
        Moved::Header => Header::decode_from::<ByteSum, SlowReader<'_>>(from),
    }
}

// The header of what a writer was given, if it took these bytes, and the number of calls that did
// not fail.
fn move_to(
    alloc: Global,
    failure: Failure,
    moved: Moved,
    fails_at: usize,
) -> (Result<Header>, usize) {
    let bytes = match moved {
        Moved::Frame => &ABC,
        Moved::Header => ABC.split_at(33).0,
    };
    let mut to = SlowWriter::new(Vec::new(alloc), fails_at, failure);
    let written = write_to(&mut to, moved);
    let is_front = bytes.get(..to.calls) == Some(to.taken.as_slice());
    (
        if is_front {
            written
        } else {
            Err(Error::TooLong)
        },
        to.calls,
    )
}

// The header of the frame of `abc`, if it is moved like this and the call of this number fails, and
// the number of calls before.
fn move_by(
    alloc: Global,
    device: Device,
    moved: Moved,
    fails_at: usize,
) -> (Result<Header>, usize) {
    match device {
        Device::Writer(failure) => move_to(alloc, failure, moved, fails_at),
        Device::Reader => {
            let mut from = SlowReader::new(&ABC, fails_at);
            (read_from(alloc, &mut from, moved), from.calls)
        }
        Device::File => {
            let mut file = SlowFile::new(&ABC, fails_at);
            let handle = BlockHandle::new(BlockOffset(0), 36);
            let block = Block::from_file::<ByteSum, SlowFile<'_>>(alloc, &mut file, handle);
            (header_of(block), file.calls)
        }
    }
}

// Whether a move ended where the call of this number failed.
fn ends_at(moved: &(Result<Header>, usize), call: usize) -> bool {
    matches!(moved, (Err(Error::Io), calls) if *calls == call)
}

// The first of so many calls that may fail and is not the one that ends the move, if there is one.
fn first_wrong(alloc: Global, device: Device, moved: Moved, calls: usize) -> Option<usize> {
    for fails_at in 0..calls {
        if !ends_at(&move_by(alloc, device, moved, fails_at), fails_at) {
            return Some(fails_at);
        }
    }
    None
}

#[test]
fn each_call_of_a_device_may_fail(rt: HostRuntime) {
    for (name, device, moved, calls) in &DEVICES {
        let wrong = first_wrong(rt.alloc(), *device, *moved, *calls);
        let whole = move_by(rt.alloc(), *device, *moved, usize::MAX);
        let is_moved = whole == (Ok(abc_header()), *calls);
        assert!(rt; wrong.is_none() && is_moved, "{name} {wrong:?}");
    }
}

#[test]
fn accepted_bytes_are_hashed(rt: HostRuntime) {
    let slow = SlowWriter::new(Vec::new(rt.alloc()), 3, Failure::Error);
    let mut writer: ChecksummedWriter<SlowWriter, ByteSum> = ChecksummedWriter::new(slow);
    assert!(rt; writer.write(b"abc").ok() == Some(1) && writer.flush().is_ok());
    assert!(rt; writer.checksum() == Checksum::from_raw(97));
    assert!(rt; writer.write_all(b"bcd").is_err());
    assert!(rt; writer.checksum() == Checksum::from_raw(294));
    assert!(rt; writer.inner_mut().taken.as_slice() == b"abc".as_slice());
    assert!(rt; writer.inner_mut().flushes == 1);
}

#[test]
fn given_bytes_are_hashed(rt: HostRuntime) {
    let mut reader: ChecksummedReader<&[u8], ByteSum> = ChecksummedReader::new(b"abcde");
    let mut buf = [0u8; 2];
    assert!(rt; reader.read(&mut buf).ok() == Some(2));
    assert!(rt; reader.checksum() == Checksum::from_raw(195));
    assert!(rt; reader.read_exact(&mut buf).is_ok());
    assert!(rt; reader.checksum() == Checksum::from_raw(394));
    assert!(rt; reader.into_inner() == b"e".as_slice());
}
