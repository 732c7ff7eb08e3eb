//! Texts printed and read back.

use crate::read::read;
use crate::texts::push_statement;
use adj_fixed::Mode;
use adj_print::text;
use adj_tree::{Fault, boxed};
use std::alloc::Global;

// Every kind of statement, and parentheses of each kind, as they are printed.
const CANONICAL: &[u8] = b"      SUBROUTINE P(A,N,X)
      IMPLICIT NONE
      INTEGER*8 N
      INTEGER*8 A(N,3)
      INTEGER*8 B(5)
      INTEGER*8 X
      X=A-(B-C)
      X=A-B-C
      X=-(A+B)
      X=-A+B
      X=(-A)**2
      X=-A**2
      X=A*(B/C)
      X=A*B/C
      X=A-(-B)
      A(I,J+1)=A(I,J)+MAX(X,MIN(Y,0))-ABS(Z)+MOD(X,7)
      MAX(1)=2
      IF (.NOT.(A.LT.B.OR.C.LT.D)) THEN
      X=1
      ELSE
      IF (A.LE.B.AND.(C.EQ.D.OR.E.NE.F)) THEN
      X=9223372036854775807
      END IF
      END IF
C$AD BINOMIAL-CKP 7
      DO I=1,N
      DO J=N,1,-1
      B(J)=B(J)*I
      END DO
      END DO
      DO I=1,10,K
      CALL Q
      CALL R(A,B(I),(X+1)*2)
      END DO
      END
      SUBROUTINE Q
      CALL PUSHINTEGER8(X)
      CALL POPINTEGER8(B(2))
      CALL PUSHINTEGER8ARRAY(A)
      CALL POPINTEGER8ARRAY(A)
      CALL PUSHCONTROL1B(1)
      CALL POPCONTROL1B(ADC)
      CALL ADZERO8(AB)
      CALL ADBEG(ADL1,7)
      CALL ADACTN(ADL1,7,ADN1)
      CALL ADACT(ADL1,7,ADK1,ADA1,ADF1,ADT1)
      CALL ADEND
      END
";

// The adjoint of a square with full marks.
const SQUARE: &[u8] = b"      SUBROUTINE P_B(X,XB,Y,YB)
      INTEGER*8 X
      INTEGER*8 XB
      INTEGER*8 Y
      INTEGER*8 YB
      INTEGER*8 ADW1
      INTEGER*8 ADW2
      CALL PUSHINTEGER8(Y)
      Y=X*X
      XB=0
      CALL POPINTEGER8(Y)
      ADW1=YB
      YB=0
      ADW2=ADW1*X
      XB=XB+ADW2
      ADW2=ADW1*X
      XB=XB+ADW2
      YB=0
      END
";

// Directives with a number and with a name, loops in a loop, and branches of which a part is empty.
const BLOCKS: &[u8] = b"      SUBROUTINE P_B
      IMPLICIT NONE
      DO I=1,N
      END DO
C$AD BINOMIAL-CKP 3
      DO I=1,N,K
      CALL PUSHINTEGER8(I)
      END DO
C$AD BINOMIAL-CKP M
      DO I=1,N
      DO WHILE (I.LT.N)
      END DO
      END DO
      IF (A.LT.2) THEN
      CALL ADEND
      END IF
      IF (A.LT.2) THEN
      ELSE
      A=3
      END IF
      END
";

// The same program written otherwise: labels, shared CONTINUE, ELSE IF, logical IF, blanks, small letters and comments.
const FREE: &[u8] = b"C a comment
      subroutine p(a, n, x)
      implicit none
      integer n
      integer*8 a(n, 3), b(5)
      INTEGER X
      X = A - (B - C)
      X = (A - B) - C
      X = -(A + B)
      X = (-A) + B
      X = (-A)**2
      X = -(A**2)
      X = A*(B/C)
      X = (A*B)/C
      X = A - (-B)
      A(I, J + 1) = A(I, J) + MAX0(X, MIN0(Y, 0)) - IABS(Z)
     1 + MOD(X, 7)
      MAX(1) = 2
      IF (.NOT. (A .LT. B .OR. C .LT. D)) THEN
        X = 1
      ELSE IF (A .LE. B .AND. (C .EQ. D .OR. E .NE. F)) THEN
        X = 9223372036854775807
      END IF
C$AD BINOMIAL-CKP 7
      DO 10 I = 1, N
      DO 10 J = N, 1, -1
      B(J) = B(J)*I
   10 CONTINUE
      END
";

// The canonical text of what a text reads as, by way of an equal program.
fn printed(alloc: Global, bytes: &[u8]) -> Result<Vec<u8>, Fault> {
    let program = boxed(alloc, read(alloc, bytes, Mode::Run)?)?;
    let copy = boxed(alloc, program.copy(alloc)?)?;
    let text = text(alloc, &copy)?;
    Ok(text)
}

// Whether a text is its own canonical text.
fn is_canonical(alloc: Global, bytes: &[u8]) -> Result<bool, Fault> {
    Ok(printed(alloc, bytes)?.as_slice() == bytes)
}

// Whether the canonical text of a text is its own.
fn is_canonical_printed(alloc: Global, bytes: &[u8]) -> Result<bool, Fault> {
    let text = printed(alloc, bytes)?;
    is_canonical(alloc, text.as_slice())
}

#[test]
fn what_is_printed_reads_as_it_was_written(rt: HostRuntime) {
    let alloc = rt.alloc();
    let found = [
        is_canonical(alloc, CANONICAL),
        is_canonical(alloc, SQUARE),
        is_canonical(alloc, BLOCKS),
        is_canonical_printed(alloc, FREE),
    ];
    assert!(rt; found == [Ok(true); 4], "{found:?}");
}

// A unit whose one statement has so many characters: a sum of ones, assigned to a name of one or two letters.
fn unit_of(alloc: Global, length: usize) -> Result<Vec<u8>, Fault> {
    let mut statement = Vec::from_slice(alloc, if length % 2 == 0 { b"XY=1" } else { b"X=1" })?;
    let more = length.saturating_sub(statement.len()) / 2;
    for _ in 0..more {
        statement.extend_from_slice(b"+1")?;
    }
    let mut all = Vec::from_slice(alloc, b"      SUBROUTINE P\n")?;
    push_statement(&mut all, statement.as_slice())?;
    all.extend_from_slice(b"      END\n")?;
    Ok(all)
}

// Whether such a unit is printed and read back.
fn is_read_back(alloc: Global, length: usize) -> Result<bool, Fault> {
    let text = unit_of(alloc, length)?;
    is_canonical(alloc, text.as_slice())
}

#[test]
fn statements_at_the_end_of_their_lines_are_printed_and_read_back(rt: HostRuntime) {
    let alloc = rt.alloc();
    let found = [
        is_read_back(alloc, 66),
        is_read_back(alloc, 67),
        is_read_back(alloc, 132),
        is_read_back(alloc, 133),
    ];
    assert!(rt; found == [Ok(true); 4], "{found:?}");
}
