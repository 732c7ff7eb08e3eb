//! Streams that fail.

use crate::calls::{Faults, comes_to};

const SQUARE: &[u8] = b"      SUBROUTINE P(X,Y)\n      INTEGER*8 X,Y\n      Y=X*X\n      END\n";

const ARGUMENTS: &str = "adjoint --head P --vars X --outvars Y";

const ADJOINT: &[u8] = b"      SUBROUTINE P_B(X,XB,Y,YB)
      INTEGER*8 X
      INTEGER*8 XB
      INTEGER*8 Y
      INTEGER*8 YB
      INTEGER*8 ADW1
      INTEGER*8 ADW2
      XB=0
      ADW1=YB
      YB=0
      ADW2=ADW1*X
      XB=XB+ADW2
      ADW2=ADW1*X
      XB=XB+ADW2
      YB=0
      END
";

const LINE: &str = "run --head P --budget 1000";

const TEXT: &[u8] = b"      SUBROUTINE P(X,Y)
      INTEGER*8 X,Y
      Y=X*X
      END
$DATA
X 7
Y 0
";

const WRITTEN: &[u8] = b"X 7\nY 49\nTAPE 0\nUSED 1\n";

// Arguments, an input, the reads and the writes that fail, the status and what was written.
const FAILING: [(&str, &[u8], &[u64], &[u64], u8, &[u8]); 24] = [
    // a text of 80 bytes is read in eight pieces, and a ninth read finds its end
    (LINE, TEXT, &[1], &[], 7, b""),
    (LINE, TEXT, &[2], &[], 7, b""),
    (LINE, TEXT, &[3], &[], 7, b""),
    (LINE, TEXT, &[4], &[], 7, b""),
    (LINE, TEXT, &[5], &[], 7, b""),
    (LINE, TEXT, &[6], &[], 7, b""),
    (LINE, TEXT, &[7], &[], 7, b""),
    (LINE, TEXT, &[8], &[], 7, b""),
    (LINE, TEXT, &[9], &[], 7, b""),
    (LINE, TEXT, &[10], &[], 0, WRITTEN),
    // what is written has 23 bytes, in three pieces
    (LINE, TEXT, &[], &[1], 8, b""),
    (LINE, TEXT, &[], &[2], 8, b"X 7\nY 49\nT"),
    (LINE, TEXT, &[], &[3], 8, b"X 7\nY 49\nTAPE 0\nUSED"),
    (LINE, TEXT, &[], &[4], 0, WRITTEN),
    // another command: a text of 66 bytes is read in seven pieces, and an eighth read finds its end
    (ARGUMENTS, SQUARE, &[1], &[], 7, b""),
    (ARGUMENTS, SQUARE, &[2], &[], 7, b""),
    (ARGUMENTS, SQUARE, &[3], &[], 7, b""),
    (ARGUMENTS, SQUARE, &[4], &[], 7, b""),
    (ARGUMENTS, SQUARE, &[5], &[], 7, b""),
    (ARGUMENTS, SQUARE, &[6], &[], 7, b""),
    (ARGUMENTS, SQUARE, &[7], &[], 7, b""),
    (ARGUMENTS, SQUARE, &[8], &[], 7, b""),
    (ARGUMENTS, SQUARE, &[9], &[], 0, ADJOINT),
    (ARGUMENTS, SQUARE, &[], &[2], 8, b"      SUBR"),
];

#[test]
fn a_read_or_a_write_that_fails(rt: HostRuntime) {
    for (index, row) in FAILING.iter().enumerate() {
        let (arguments, input, reads, writes, status, front) = *row;
        let faults = Faults { reads, writes };
        let holds = comes_to(rt.alloc(), arguments, input, faults, status, front);
        assert!(rt; holds == Ok(true), "{index}");
    }
}
