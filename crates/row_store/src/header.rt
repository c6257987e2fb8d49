// How a system file begins.
ghost use Rattle.std.specs.Prelude.{◌≡◌, ◌≤◌, ◌+◌, ◌↔◌, IsTrue, List, [], length, take, drop, OnErr, IfErr};
ghost use Rattle.std.specs.Int.{w32, from_be_bytes};
ghost use Rattle.disk_trait.specs.Story.{WhereTold};
ghost use Rattle.row_store.specs.Header.{head_of, magic, header};
ghost use Rattle.row_store.specs.Opening.{IsJudged, IsCheckOf, HasCount};

use crate::outcome::RowsRefused;
use disk_trait::Disk;

/// The bytes of the header, and one byte behind it.
const HEAD: usize = 65;

/// The version that is written.
const VERSION: u32 = 1;

const MAGIC: [u8; 16] = *b"dd dictionary 8\n";

/// The header: the magic, the version, and neither pages nor a run.
pub const HEADER: [u8; 64] = [
    100, 100, 32, 100, 105, 99, 116, 105, 111, 110, 97, 114, 121, 32, 56, 10, 0, 0, 0, 1, 0, 0, 0,
    0, 0, 0, 0, 0, 0, 0, 0, 0, 0, 0, 0, 0, 0, 0, 0, 0, 0, 0, 0, 0, 0, 0, 0, 0, 0, 0, 0, 0, 0, 0, 0,
    0, 0, 0, 0, 0, 0, 0, 0, 0,
];

/// Whether a file begins as one of this version.
pub fn check<D: Disk>(disk: &mut D, path: &str) -> Result<(), RowsRefused>
    ensures same { D.story disk.new ≡ D.story disk.old }
    ensures judged { WhereTold (D.story disk.old) (λ d. IsCheckOf result (head_of (d path.now))) }
    ensures onward { D.moment_of disk.old ≤ D.moment_of disk.new }
    ensures calls { D.moment_of disk.new ≤ D.moment_of disk.old + 1 }
    ensures later { D.faults_of disk.old ≤ D.faults_of disk.new }
    ensures count { IfErr result (λ refused. HasCount refused (D.faults_of disk.old) (D.faults_of disk.new)) }
{
    let mut bytes = [0u8; HEAD];
    match disk.read_at(path, 0, &mut bytes) {
        Ok(read) => judge(front(&bytes, read)),
        Err(_) => Err(RowsRefused::Fault {
            count: disk.faults(),
        }),
    }
}

fn front(bytes: &[u8], len: usize) -> &[u8]
    requires { len ≤ length bytes.now }
    ensures { result.now ≡ take len bytes.now }
{
    let (front, _) = bytes.split_at(len);
    front
}

/// What the head of a file shows.
fn judge(bytes: &[u8]) -> Result<(), RowsRefused>
    ensures { IsJudged result bytes.now }
{
    if bytes.len() != HEAD || !is_named(bytes) {
        return Err(RowsRefused::NoForm);
    }
    let number = version_of(bytes);
    if number > VERSION {
        return Err(RowsRefused::Version { number });
    }
    if is_header(front(bytes, 64)) {
        Ok(())
    } else {
        Err(RowsRefused::NoForm)
    }
}

fn is_named(bytes: &[u8]) -> bool
    requires { length bytes.now ≡ 65 }
    ensures { IsTrue result ↔ (take 16 bytes.now ≡ magic) }
{
    front(bytes, 16) == MAGIC.as_slice()
}

fn is_header(bytes: &[u8]) -> bool
    ensures { IsTrue result ↔ (bytes.now ≡ header) }
{
    bytes == HEADER.as_slice()
}

fn version_of(bytes: &[u8]) -> u32
    requires { length bytes.now ≡ 65 }
    ensures { result ≡ from_be_bytes w32 (take 4 (drop 16 bytes.now)) }
{
    let (_, rest) = bytes.split_at(16);
    let (number, _) = rest.split_at(4);
    u32::from_be_bytes([number[0], number[1], number[2], number[3]])
}
