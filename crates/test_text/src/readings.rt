//! What statements read as: their canonical text. Those that are refused stand in the golden cases of tests/.

use crate::read::reading;
use crate::texts::push_line;
use adj_fixed::Mode;
use adj_tool_answer::read_marked;
use adj_tree::{Fault, Memory};
use std::alloc::Global;

// A body that is one statement or more, and its canonical text.
// A line that begins with a blank or is a directive stands as it is; any other begins in column 7.
const SUMS: &[(&str, &str)] = &[
    ("X=A+B*C", "X=A+B*C"),
    ("X=(A+B)*C", "X=(A+B)*C"),
    ("X=A-B-C", "X=A-B-C"),
    ("X=(A-B)-C", "X=A-B-C"),
    ("X=A-(B-C)", "X=A-(B-C)"),
    ("X=A-(B+C)", "X=A-(B+C)"),
    ("X=A/B*C", "X=A/B*C"),
    ("X=A/(B*C)", "X=A/(B*C)"),
    ("X=A*(B/C)", "X=A*(B/C)"),
    ("X=MAX(A+10,B)", "X=MAX(A+10,B)"),
    ("X=A**2**1", "X=A**2"),
    ("X=(A**2)**3", "X=(A**2)**3"),
    ("X=-A+B", "X=-A+B"),
    ("X=-(A+B)", "X=-(A+B)"),
    ("X=-A*B", "X=-A*B"),
    ("X=(-A)*B", "X=(-A)*B"),
    ("X=-A**2", "X=-A**2"),
    ("X=(-A)**2", "X=(-A)**2"),
    ("X=+A", "X=A"),
    ("X=A+(-B)", "X=A+(-B)"),
    ("X=((A))", "X=A"),
    ("X=00012", "X=12"),
    ("x = a b", "X=AB"),
    ("X=A**(2*3)", "X=A**6"),
    ("X=A**(7-4)+A**0", "X=A**3+A**0"),
    ("X=A**63", "X=A**63"),
];

const EXPONENTS: &[(&str, &str)] = &[
    ("X=A**N", "X=A**N"),
    ("X=A**(N+1)", "X=A**(N+1)"),
    ("X=A**2**N", "X=A**2**N"),
    ("X=(A**2)**N", "X=(A**2)**N"),
    ("X=-A**N", "X=-A**N"),
    ("X=A**(4/2)", "X=A**(4/2)"),
    ("X=9223372036854775807", "X=9223372036854775807"),
    ("X=MAX0(A,MIN0(B,1))", "X=MAX(A,MIN(B,1))"),
    ("X=IABS(A)+ABS(B)+MOD(A,B)", "X=ABS(A)+ABS(B)+MOD(A,B)"),
    ("X=A(I)+A(I,J+1)", "X=A(I)+A(I,J+1)"),
    ("MAX(1)=ABS", "MAX(1)=ABS"),
];

const CONDITIONS: &[(&str, &str)] = &[
    // calls
    ("CALL Q", "CALL Q"),
    ("CALL Q()", "CALL Q"),
    ("CALL Q((A),B(I),-C)", "CALL Q(A,B(I),-C)"),
    ("CALL PUSHINTEGER8((X))", "CALL PUSHINTEGER8(X)"),
    ("CALL ADEND(X)", "CALL ADEND(X)"),
    // conditions
    ("IF (A.LT.B) X=1", "IF (A.LT.B) THEN\nX=1\nEND IF"),
    ("IF (A.GE.B) CALL Q", "IF (A.GE.B) THEN\nCALL Q\nEND IF"),
    ("IF (((A.LT.B))) X=1", "IF (A.LT.B) THEN\nX=1\nEND IF"),
    ("IF ((A+B).LT.(C)) X=1", "IF (A+B.LT.C) THEN\nX=1\nEND IF"),
    (
        "IF (A.LT.B.AND.C.GT.D.OR.E.EQ.F) X=1",
        "IF (A.LT.B.AND.C.GT.D.OR.E.EQ.F) THEN\nX=1\nEND IF",
    ),
    (
        "IF (A.LT.B.AND.(C.GT.D.OR.E.EQ.F)) X=1",
        "IF (A.LT.B.AND.(C.GT.D.OR.E.EQ.F)) THEN\nX=1\nEND IF",
    ),
    (
        "IF (.NOT.(A.LT.B).AND.C.NE.D) X=1",
        "IF (.NOT.A.LT.B.AND.C.NE.D) THEN\nX=1\nEND IF",
    ),
    (
        "IF (.NOT.(A.LT.B.OR.C.LE.D)) X=1",
        "IF (.NOT.(A.LT.B.OR.C.LE.D)) THEN\nX=1\nEND IF",
    ),
];

const BLOCKS: &[(&str, &str)] = &[
    // blocks
    ("DO I=1,N\nEND DO", "DO I=1,N\nEND DO"),
    ("DO I=1,N,1\nEND DO", "DO I=1,N\nEND DO"),
    ("DO I=N,1,-1\nX=I\nEND DO", "DO I=N,1,-1\nX=I\nEND DO"),
    ("DO I=1,N,K\nEND DO", "DO I=1,N,K\nEND DO"),
    ("DO 10, I=1,2\n   10 CONTINUE", "DO I=1,2\nEND DO"),
    ("DO 0010 I=1,2\n   10 CONTINUE", "DO I=1,2\nEND DO"),
    (
        "DO 10 I=1,2\nDO 10 J=1,2\nX=X+1\n   10 CONTINUE\nX=2",
        "DO I=1,2\nDO J=1,2\nX=X+1\nEND DO\nEND DO\nX=2",
    ),
    (
        "DO 20 I=1,2\nDO 10 J=1,2\n   10 CONTINUE\n   20 CONTINUE",
        "DO I=1,2\nDO J=1,2\nEND DO\nEND DO",
    ),
    (
        "DO 10 I=1,2\nIF (A.LT.B) THEN\nDO 10 J=1,2\n   10 CONTINUE\nEND IF\n   10 CONTINUE",
        "DO I=1,2\nIF (A.LT.B) THEN\nDO J=1,2\nEND DO\nEND IF\nEND DO",
    ),
    (
        "C$AD BINOMIAL-CKP 7\nDO I=1,2\nEND DO",
        "C$AD BINOMIAL-CKP 7\nDO I=1,2\nEND DO",
    ),
    ("   10 CONTINUE\n   20 X=1\nCONTINUE", "X=1"),
    (
        "IF (A.LT.B) THEN\nX=1\nELSE\nX=2\nEND IF",
        "IF (A.LT.B) THEN\nX=1\nELSE\nX=2\nEND IF",
    ),
    (
        "IF (A.LT.B) THEN\nX=1\nELSE IF (A.EQ.B) THEN\nX=2\nELSE\nX=3\nEND IF\nX=4",
        "IF (A.LT.B) THEN\nX=1\nELSE\nIF (A.EQ.B) THEN\nX=2\nELSE\nX=3\nEND IF\nEND IF\nX=4",
    ),
    ("IF (A.LT.B) THEN\nELSE\nEND IF", "IF (A.LT.B) THEN\nEND IF"),
    ("X=1\nRETURN", "X=1"),
];

const LOOPS: &[(&str, &str)] = &[
    // DO WHILE, and directives with a number or a name
    (
        "do while ((I.LT.N))\nI=I+1\nEND DO",
        "DO WHILE (I.LT.N)\nI=I+1\nEND DO",
    ),
    (
        "DO 10 I=1,N\nDO WHILE (K.LT.N)\nENDDO\n   10 CONTINUE",
        "DO I=1,N\nDO WHILE (K.LT.N)\nEND DO\nEND DO",
    ),
    ("DO WHILE = 1", "DOWHILE=1"),
    (
        "C$Ad binomial-ckp  Max_n  \nDO I=1,N\nEND DO",
        "C$AD BINOMIAL-CKP MAX_N\nDO I=1,N\nEND DO",
    ),
    // declarations
    (
        "IMPLICIT NONE\nINTEGER A, B",
        "IMPLICIT NONE\nINTEGER*8 A\nINTEGER*8 B",
    ),
    ("INTEGER*8 A(3),B(N,2)", "INTEGER*8 A(3)\nINTEGER*8 B(N,2)"),
    ("INTEGER*08 A", "INTEGER*8 A"),
];

/// Loops that share their CONTINUE, in small letters and without blanks, and the same as it is written canonically.
const SHARED: &[u8] = b"      subroutine p(n,k)
      INTEGER N,K
      K=0                                                               JUNK
      DO10I=1,2
      DO 10 J = 1 , N
      K=K+I*J
   10 CONTINUE
      RETURN
      END
";

const SHARED_TREE: &[u8] = b"      SUBROUTINE P(N,K)
      INTEGER*8 N
      INTEGER*8 K
      K=0
      DO I=1,2
      DO J=1,N
      K=K+I*J
      END DO
      END DO
      END
";

/// A loop over time steps, whose values are to be kept in five snapshots.
const WAVE: &[u8] = b"      SUBROUTINE WAVE(N,U,S)
      INTEGER*8 N,U(N),S,V(50)
C$AD BINOMIAL-CKP 5
      DO 30 K=1,100
      DO 10 I=2,N
      V(I)=U(I-1)*U(I)
   10 CONTINUE
      DO 20 I=2,N
      U(I)=V(I)
   20 CONTINUE
   30 CONTINUE
      S=U(N)
      END
";

const WAVE_TREE: &[u8] = b"      SUBROUTINE WAVE(N,U,S)
      INTEGER*8 N
      INTEGER*8 U(N)
      INTEGER*8 S
      INTEGER*8 V(50)
C$AD BINOMIAL-CKP 5
      DO K=1,100
      DO I=2,N
      V(I)=U(I-1)*U(I)
      END DO
      DO I=2,N
      U(I)=V(I)
      END DO
      END DO
      S=U(N)
      END
";

/// Two calls that directives split, and two that none does.
const SPLIT: &[u8] = b"      SUBROUTINE P(X,Y)
      INTEGER*8 X,Y
C$AD NOCHECKPOINT
      CALL Q(X)
      CALL Q(X)
c$ad nocheckpoint
* a comment
   10 CALL Q
     1(Y)
C$AD BINOMIAL-CKP 2
      DO I=1,X
      CALL Q(Y)
      END DO
      END
";

// The unit of this body.
fn unit(alloc: Global, body: &str) -> Result<Vec<u8>, Memory> {
    let mut all = Vec::new(alloc);
    push_line(&mut all, "SUBROUTINE P")?;
    for line in body.split('\n') {
        push_line(&mut all, line)?;
    }
    push_line(&mut all, "END")?;
    Ok(all)
}

// Whether a text reads as expected.
fn is_reading(alloc: Global, text: &[u8], expected: &[u8]) -> Result<bool, Memory> {
    Ok(reading(alloc, text, Mode::Source)?.as_slice() == expected)
}

// Whether the unit of this body reads as expected.
fn reads_as(alloc: Global, body: &str, expected: &str) -> Result<bool, Memory> {
    let text = unit(alloc, body)?;
    let whole = unit(alloc, expected)?;
    is_reading(alloc, text.as_slice(), whole.as_slice())
}

#[test]
fn each_statement_reads_as_its_tree(rt: HostRuntime) {
    for readings in [SUMS, EXPONENTS, CONDITIONS, BLOCKS, LOOPS] {
        for (body, expected) in readings {
            assert!(rt; reads_as(rt.alloc(), body, expected) == Ok(true), "{body}");
        }
    }
}

// The lines of its split calls are these.
fn has_splits(alloc: Global, text: &[u8], lines: &[u32]) -> Result<bool, Fault> {
    Ok(read_marked(alloc, text, Mode::Source)?.splits.as_slice() == lines)
}

#[test]
fn labelled_loops_read_as_their_trees_and_split_calls_stand_on_their_lines(rt: HostRuntime) {
    let alloc = rt.alloc();
    assert!(rt; is_reading(alloc, SHARED, SHARED_TREE) == Ok(true));
    assert!(rt; is_reading(alloc, WAVE, WAVE_TREE) == Ok(true));
    assert!(rt; has_splits(alloc, SPLIT, &[4, 8]) == Ok(true));
    assert!(rt; has_splits(alloc, WAVE, &[]) == Ok(true));
}
