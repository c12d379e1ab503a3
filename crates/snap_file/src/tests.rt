//! What the loader makes of inputs. A row of a table has how many dumps are due, an input, in which a slash stands
//! for the end of a line and a tilde for a tab, an arrow, and what comes of it: the same bytes, where the snapshots
//! that were read are written again, or the faulty line and its fault.
ghost use Rattle.std.specs.Prelude.{◌≡◌, ◌<◌, ◌^◌, length};
ghost use Rattle.snap_file.specs.Plain.{IsLoaded};

use crate::{Loaded, dump, load};
use std::alloc::{AllocError, Global};
use std::test::Fail;

const INPUTS: &str = "\
0  => the same
1 pysnap 1/limit 2/end/ => the same
1 pysnap 1/limit 2/trace 0 x 5 1 f.py:9/trace 3 4 6 1 f.py:9/end/ => the same
1 pysnap 1/limit 65535/trace 0 _ 0 2 a:b:0 a:b:2147483647/end/ => the same
1 pysnap 1/limit 2/trace 0 x 18446744073709551615 65535 f.py:9 g.py:1/end/ => the same
2 pysnap 1/limit 2/trace 0 x 5 1 f.py:9/end/pysnap 1/limit 1/trace 7 0 5 2 f.py:9/end/ => the same
1 pysnap 1/limit 9/trace 0 B 1 1 f:1/trace 0 a 1 1 f:1/trace 0 ab 1 1 f:1/trace 9 2 1 1 f:1/end/ => the same
1 pysnap 1/limit 9/trace 9 2 1 1 f:1/trace 9 10 1 1 f:1/trace 10 1 1 1 f:1/end/ => the same
1  => line 1: Short
1 pysnap 1/limit 1/ => line 3: Short
2 pysnap 1/limit 1/end/ => line 4: Short
1 pysnap 1/limit 1/end => line 3: BadEnd
0 x => line 1: BadEnd
1 pysnap 1/limit 1/end/x => line 4: BadEnd
1 pysnap 1/limit 1/end/x/ => line 4: Trailing
0 / => line 1: Trailing
1 pysnap 2/ => line 1: BadHeader
1 pysnap 1~/ => line 1: BadHeader
2 pysnap 1/limit 1/end/pysnap 1 / => line 4: BadHeader
1 pysnap 1/limit~2/ => line 2: BadByte
2 pysnap 1/limit 1/end/pysnap 1/limit~2/ => line 5: BadByte
1 pysnap 1/limits 2/ => line 2: UnknownWord
1 pysnap 1/end/ => line 2: UnknownWord
1 pysnap 1/limit 2/limit 2/ => line 3: UnknownWord
1 pysnap 1/limit 2// => line 3: UnknownWord
1 pysnap 1/limit  2/ => line 2: BadWords
1 pysnap 1/limit/ => line 2: BadWords
1 pysnap 1/limit 2/end / => line 3: BadWords
1 pysnap 1/limit 2/trace 0 x 5 1/ => line 3: BadWords
2 pysnap 1/limit 2/end/pysnap 1/limit 2/trace 0 x 5 1/ => line 6: BadWords
1 pysnap 1/limit 0/ => line 2: BadRange
1 pysnap 1/limit 65536/ => line 2: BadRange
1 pysnap 1/limit 2/trace 4294967296 4 6 1 f.py:9/ => line 3: BadRange
1 pysnap 1/limit 02/ => line 2: BadNumber
1 pysnap 1/limit 2/trace 3 04 6 1 f.py:9/ => line 3: BadNumber
1 pysnap 1/limit 2/trace 3 4 18446744073709551616 1 f.py:9/ => line 3: BadNumber
1 pysnap 1/limit 2/trace 0 x-y 5 1 f.py:1/ => line 3: BadName
1 pysnap 1/limit 2/trace 0 x 5 1 f.py/ => line 3: BadFrame
1 pysnap 1/limit 2/trace 0 x 5 1 f.py:01/ => line 3: BadFrame
1 pysnap 1/limit 2/trace 0 x 5 1 :1/ => line 3: BadFrame
1 pysnap 1/limit 2/trace 0 x 5 1 f:2147483648/ => line 3: BadFrame
1 pysnap 1/limit 2/trace 0 x 5 2 f.py:1/ => line 3: BadFrames
1 pysnap 1/limit 1/trace 0 x 5 2 f.py:1 f.py:2/ => line 3: BadFrames
1 pysnap 1/limit 2/trace 3 4 6 1 f.py:9/trace 0 x 5 1 f.py:9/ => line 4: OutOfOrder
1 pysnap 1/limit 2/trace 0 x 6 1 f.py:9/trace 0 x 6 1 f.py:9/ => line 4: OutOfOrder
1 pysnap 1/limit 2/trace 0 b 6 1 f.py:9/trace 0 a 6 1 f.py:9/ => line 4: OutOfOrder
1 pysnap 1/limit 2/trace 3 10 6 1 f.py:9/trace 3 9 6 1 f.py:9/ => line 4: OutOfOrder
2 pysnap 1/limit 2/end/pysnap 1/limit 2/trace 1 2 5 1 f:1/trace 1 1 5 1 f:1/ => line 7: OutOfOrder";

// The bytes of the input.
fn bytes_of(alloc: Global, text: &str) -> Result<Vec<u8>, AllocError> {
    let mut bytes = Vec::new(alloc);
    for byte in text.as_bytes() {
        bytes.push(match *byte {
            b'/' => b'\n',
            b'~' => b'\t',
            byte => byte,
        })?;
    }
    Ok(bytes)
}

// The text of all snapshots.
fn written(alloc: Global, loaded: &Loaded) -> Result<Vec<u8>, AllocError>
    requires { IsLoaded loaded.now }
{
    let mut text = Vec::new(alloc);
    for snapshot in loaded.snapshots.as_slice() {
        let one = dump(alloc, snapshot, &loaded.texts, &loaded.table)?;
        text.extend_from_slice(one.as_slice())?;
    }
    Ok(text)
}

// What comes of the bytes.
fn answer(alloc: Global, bytes: &[u8], count: u8) -> Result<String, AllocError>
    requires { length bytes.now < 2 ^ 32 }
{
    match load(alloc, bytes, count) {
        Ok(loaded) => {
            let text = written(alloc, &loaded)?;
            let told = if text.as_slice() == bytes {
                "the same"
            } else {
                "another text"
            };
            String::from_str(alloc, told)
        }
        Err(error) => format!(in alloc; "{error}"),
    }
}

#[test]
fn dumps_are_read_and_written_again_or_their_first_fault_told(rt: HostRuntime) -> Result<(), Fail> {
    for row in INPUTS.lines() {
        let (input, wanted) = row.split_once(" => ").unwrap_or((row, ""));
        let (count, text) = input.split_once(' ').unwrap_or((input, ""));
        let bytes = bytes_of(rt.alloc(), text)?;
        let count = count.parse::<u8>().unwrap_or(0);
        if bytes.len() < 1000 {
            let found = answer(rt.alloc(), bytes.as_slice(), count)?;
            assert_eq!(rt; found.as_str(), wanted, "at {row:?}");
        } else {
            assert!(rt; false);
        }
    }
    Ok(())
}
