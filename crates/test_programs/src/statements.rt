//! Statements of a unit, and those that they become in its kernel, worked out by hand by docs/KERNEL.md.

use crate::kernels::becomes;
use adj_tree::{Fault, Memory};
use std::alloc::Global;

// The kernel's unit up to its locals.
const HEAD: &str =
    "SUBROUTINE P(A,B,I,J,W,X,Y,Z);INTEGER*8 A(9);INTEGER*8 B(3,3);INTEGER*8 W;INTEGER*8 X;INTEGER*8 Y;INTEGER*8 Z;";

// G writes its first dummy alone, and H none.
const CALLED: &str = "END;SUBROUTINE G(M,N);M=M+N;END;SUBROUTINE H(M,N);END;";

// The statements, how many locals are declared for them, and what they become; a semicolon ends a line.
const STATEMENTS: [(&str, u8, &str); 20] = [
    (
        "Y=MAX(MAX(X,Z),W);",
        4,
        "ADV1=X;ADV2=Z;IF (ADV1.LT.ADV2) THEN;ADV1=ADV2;END IF;ADV3=ADV1;ADV4=W;IF (ADV3.LT.ADV4) THEN;ADV3=ADV4;END IF;Y=ADV3;",
    ),
    (
        "Y=MAX(X,MAX(Z,W));",
        4,
        "ADV1=Z;ADV2=W;IF (ADV1.LT.ADV2) THEN;ADV1=ADV2;END IF;ADV3=X;ADV4=ADV1;IF (ADV3.LT.ADV4) THEN;ADV3=ADV4;END IF;Y=ADV3;",
    ),
    (
        "Y=Z*ABS(X*W);",
        1,
        "ADV1=X*W;IF (ADV1.LT.0) THEN;ADV1=-ADV1;END IF;Y=Z*ADV1;",
    ),
    (
        "Y=MIN(X,Z)-ABS(W);",
        3,
        "ADV1=X;ADV2=Z;IF (ADV2.LT.ADV1) THEN;ADV1=ADV2;END IF;ADV3=W;IF (ADV3.LT.0) THEN;ADV3=-ADV3;END IF;Y=ADV1-ADV3;",
    ),
    ("Y=A(MIN(I,J));", 0, "Y=A(MIN(I,J));"),
    ("Y=ABS(X)/MAX(Z,2);", 0, "Y=ABS(X)/MAX(Z,2);"),
    ("Y=MOD(ABS(X),3);", 0, "Y=MOD(ABS(X),3);"),
    ("Y=MAX(X,Z)**0;", 0, "Y=MAX(X,Z)**0;"),
    ("A(MIN(I,J))=X;", 0, "A(MIN(I,J))=X;"),
    (
        "Y=MAX(X,Z)**2;",
        2,
        "ADV1=X;ADV2=Z;IF (ADV1.LT.ADV2) THEN;ADV1=ADV2;END IF;Y=ADV1**2;",
    ),
    (
        "Y=MAX(X,Z)**MAX(I,J);",
        2,
        "ADV1=X;ADV2=Z;IF (ADV1.LT.ADV2) THEN;ADV1=ADV2;END IF;Y=ADV1**MAX(I,J);",
    ),
    (
        "A(MAX(A(I),J))=ABS(A(J));",
        4,
        "ADV2=A(I);ADV3=J;IF (ADV2.LT.ADV3) THEN;ADV2=ADV3;END IF;ADV1=ADV2;ADV4=A(J);IF (ADV4.LT.0) THEN;ADV4=-ADV4;END IF;A(ADV1)=ADV4;",
    ),
    ("B(I,B(J,I))=B(I,J);", 1, "ADV1=B(J,I);B(I,ADV1)=B(I,J);"),
    ("CALL H(I+1,I);", 1, "ADV1=I+1;CALL H(ADV1,I);"),
    (
        "CALL G(A(MAX(I,J)),3);",
        5,
        "ADV2=I;ADV3=J;IF (ADV2.LT.ADV3) THEN;ADV2=ADV3;END IF;ADV1=ADV2;ADV4=A(ADV1);ADV5=3;CALL G(ADV4,ADV5);A(ADV1)=ADV4;",
    ),
    (
        "CALL H(X*ABS(Z),Y);",
        2,
        "ADV1=Z;IF (ADV1.LT.0) THEN;ADV1=-ADV1;END IF;ADV2=X*ADV1;CALL H(ADV2,Y);",
    ),
    ("CALL G(X,(X));", 1, "ADV1=X;CALL G(X,ADV1);"),
    (
        "DO I=MIN(J,9),MAX(J,9);Y=ABS(X);END DO;",
        1,
        "DO I=MIN(J,9),MAX(J,9);ADV1=X;IF (ADV1.LT.0) THEN;ADV1=-ADV1;END IF;Y=ADV1;END DO;",
    ),
    (
        "IF (MAX(X,Z).GT.0) THEN;Y=ABS(X);END IF;",
        1,
        "IF (MAX(X,Z).GT.0) THEN;ADV1=X;IF (ADV1.LT.0) THEN;ADV1=-ADV1;END IF;Y=ADV1;END IF;",
    ),
    (
        "DO WHILE (MAX(X,Z).GT.0);X=ABS(Y);END DO;",
        1,
        "DO WHILE (MAX(X,Z).GT.0);ADV1=Y;IF (ADV1.LT.0) THEN;ADV1=-ADV1;END IF;X=ADV1;END DO;",
    ),
];

// The lines, each from column 7 on.
fn push_lines(all: &mut Vec<u8>, lines: &str) -> Result<(), Memory> {
    for line in lines.split_terminator(';') {
        all.extend_from_slice(b"      ")?;
        all.extend_from_slice(line.as_bytes())?;
        all.push(b'\n')?;
    }
    Ok(())
}

// The declarations of so many locals.
fn push_locals(all: &mut Vec<u8>, count: u8) -> Result<(), Memory> {
    for number in 0..count {
        all.extend_from_slice(b"      INTEGER*8 ADV")?;
        all.push(b'1' + number % 9)?;
        all.push(b'\n')?;
    }
    Ok(())
}

// The text of a unit with these statements.
fn source(alloc: Global, lines: &str) -> Result<Vec<u8>, Memory> {
    let mut all = Vec::new(alloc);
    push_lines(
        &mut all,
        "SUBROUTINE P(A,B,I,J,W,X,Y,Z);INTEGER*8 A(9),B(3,3),W,X,Y,Z;",
    )?;
    push_lines(&mut all, lines)?;
    push_lines(&mut all, CALLED)?;
    Ok(all)
}

// The text of its kernel, with so many locals.
fn expected(alloc: Global, locals: u8, lines: &str) -> Result<Vec<u8>, Memory> {
    let mut all = Vec::new(alloc);
    push_lines(&mut all, HEAD)?;
    push_locals(&mut all, locals)?;
    push_lines(&mut all, lines)?;
    push_lines(&mut all, CALLED)?;
    Ok(all)
}

// Whether these lines become others, with so many locals.
fn become_those(alloc: Global, lines: &str, locals: u8, lowered: &str) -> Result<bool, Fault> {
    let text = source(alloc, lines)?;
    let kernel = expected(alloc, locals, lowered)?;
    becomes(alloc, text.as_slice(), kernel.as_slice())
}

#[test]
fn each_statement_becomes_those_of_its_kernel(rt: HostRuntime) {
    for case in &STATEMENTS {
        let (lines, locals, lowered) = *case;
        assert!(rt;
            become_those(rt.alloc(), lines, locals, lowered) == Ok(true),
            "{lines}"
        );
    }
}
