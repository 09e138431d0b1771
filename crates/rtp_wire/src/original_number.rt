//! The two bytes of the original number after the header of a repair.

ghost use Rattle.std.specs.Prelude.{◌≡◌, ◌≤◌, ◌%◌, ◌++◌, drop, length, nat_lt, if◌then◌else◌};
ghost use Rattle.std.specs.Int.{w16, to_be_bytes, from_be_bytes};

use crate::header::RtpHeader;
use crate::sequence::SeqNo;

impl RtpHeader {
    /// Writes the low 16 bits of a number in front of the buffer (RFC 4588 4), and returns their length. The bytes
    /// after them stay.
    ///
    /// # Conditions
    /// The buffer has room for two bytes.
    pub fn write_original_sequence_number(buf: &mut [u8], seq_no: SeqNo) -> usize
        requires { 2 ≤ length buf.old }
        ensures len { result ≡ 2 }
        ensures written { buf.new ≡ to_be_bytes w16 (seq_no % 65536) ++ drop 2 buf.old }
    {
        buf[..2].copy_from_slice(&seq_no.as_u16().to_be_bytes());
        2
    }

    /// Reads the low 16 bits of a number in front of the buffer (RFC 4588 4), and returns their length; 0, and nothing
    /// has changed, if there are fewer than two bytes.
    pub fn read_original_sequence_number(buf: &[u8], seq_no: &mut u16) -> usize
        ensures len { result ≡ (if nat_lt (length buf.now) 2 then 0 else 2) }
        ensures read { seq_no.new ≡ (if nat_lt (length buf.now) 2 then seq_no.old else from_be_bytes w16 buf.now) }
    {
        if buf.len() < 2 {
            return 0;
        }
        *seq_no = u16::from_be_bytes([buf[0], buf[1]]);
        2
    }
}
