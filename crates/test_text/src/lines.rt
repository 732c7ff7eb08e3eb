//! That the definitions mean what the language says: worked texts and their statements. Their faults stand in the golden cases of tests/.

use adj_fixed::{Mode, Stated, TokenKind, data_part, statements};
use adj_tree::Mark;
use std::alloc::{AllocError, Global};

// The number or the name of a directive, or that it splits a call, or 0.
fn push_advice(out: &mut String, stated: &Stated) -> Result<(), AllocError> {
    if stated.split {
        return out.push_str("split");
    }
    match &stated.mark {
        Mark::Plain => out.push_str("0"),
        Mark::Count(snapshots) => write!(out, "{snapshots}"),
        Mark::From(name) => out.push_str(str::from_utf8(name.bytes()).unwrap_or("?")),
    }
}

// One line for a statement: its line, label, what its directive says and class, then the texts of its tokens.
fn push_shown(out: &mut String, stated: &Stated) -> Result<(), AllocError> {
    write!(out, "{} {} ", stated.line, stated.label)?;
    push_advice(out, stated)?;
    write!(out, " {:?}:", stated.kind)?;
    let text = stated.text.as_slice();
    for token in stated.tokens.as_slice() {
        let lexeme = text.get(token.start..token.end).unwrap_or(&[]);
        out.push_str(if token.kind == TokenKind::Call {
            " keyword "
        } else {
            " "
        })?;
        out.push_str(str::from_utf8(lexeme).unwrap_or("?"))?;
    }
    out.push_str("\n")
}

// The statements of a text, or its fault as Debug writes it.
fn shown(alloc: Global, text: &str, mode: Mode) -> Result<String, AllocError> {
    let mut out = String::new(alloc);
    match statements(alloc, text.as_bytes(), mode) {
        Ok(all) => {
            for stated in all.as_slice() {
                push_shown(&mut out, stated)?;
            }
        }
        Err(fault) => write!(out, "{fault:?}")?,
    }
    Ok(out)
}

// Whether these are the statements of a text, or its fault, for a source and for a run.
fn are_shown(alloc: Global, text: &str, wanted: &str) -> Result<bool, AllocError> {
    if shown(alloc, text, Mode::Source)?.as_str() != wanted {
        return Ok(false);
    }
    Ok(shown(alloc, text, Mode::Run)?.as_str() == wanted)
}

// Texts, and what is shown of their statements.
const TEXTS: [(&str, &str); 4] = [
    (
        "      subroutine p(n,k)
      INTEGER N,K
      K=0                                                               JUNK
      DO10I=1,2
      DO 10 J = 1 , N
      K=K+I*J
   10 CONTINUE
      RETURN
      END
",
        "1 0 0 Subroutine: P ( N , K )
2 0 0 Integer: N , K
3 0 0 Assign: K = 0
4 0 0 Do: 10 I = 1 , 2
5 0 0 Do: 10 J = 1 , N
6 0 0 Assign: K = K + I * J
7 10 0 Continue:
8 0 0 Return:
9 0 0 End:
",
    ),
    (
        "C a comment\r
      IMPLICIT NONE\r
      INTEGER*08 A_1,B(3)
      Common / b_1 / A _ 1 , K(2)
c$ad  Binomial-Ckp 07

* another
      DO 1 0, I = A ( 1 ) , 2
 0 10 CONTI
C within a statement
     1NUE
      IF (A.LT.(B)) THEN
      ELSE IF (.NOT.A.GE.1.AND.B.EQ.2) THEN
      ELSE
     0END IF
      IF (A.NE.B.OR.C.LE.D) CALL P(X)
      IF (A.GT.B) CALL = 2
      IF (A) = B**2*3/4-5
      DO I = 1
      DO WHILE = 1
      END DO
      CALL P
c$ad  NoCheckPoint
      CALL P
      END
$DATA
      GOTO 10",
        "2 0 0 ImplicitNone:
3 0 0 Integer: A_1 , B ( 3 )
4 0 0 Common: / B_1 / A_1 , K ( 2 )
8 0 7 Do: 10 , I = A ( 1 ) , 2
9 10 0 Continue:
12 0 0 BlockIf: ( A .LT. ( B ) )
13 0 0 ElseIf: ( .NOT. A .GE. 1 .AND. B .EQ. 2 )
14 0 0 Else:
15 0 0 EndIf:
16 0 0 LogicalIf: ( A .NE. B .OR. C .LE. D ) keyword CALL P ( X )
17 0 0 LogicalIf: ( A .GT. B ) CALL = 2
18 0 0 Assign: IF ( A ) = B ** 2 * 3 / 4 - 5
19 0 0 Assign: DOI = 1
20 0 0 Assign: DOWHILE = 1
21 0 0 EndDo:
22 0 0 Call: P
24 0 split Call: P
25 0 0 End:
",
    ),
    (
        "C$Ad BINOMIAL-ckp  Max_n1  \r
      DO 10, I=1,N
      DO WH ILE (K.LT.(N+1))
      END DO
c$ad binomial-ckp c
* another
      CALL P
",
        "2 0 MAX_N1 Do: 10 , I = 1 , N
3 0 0 DoWhile: ( K .LT. ( N + 1 ) )
4 0 0 EndDo:
7 0 C Call: P
",
    ),
    ("", ""),
];

#[test]
fn texts_give_their_statements(rt: HostRuntime) {
    for case in &TEXTS {
        let (text, wanted) = *case;
        assert!(rt; are_shown(rt.alloc(), text, wanted) == Ok(true), "{text}");
    }
}

// Texts without a fault of lines or of statements: what a later pass looks at, columns past 72, and what stands behind the data's line.
const LATER: [&str; 10] = [
    "      DO10I=(1,2)",
    "      IF (A) CONTINUE",
    "      COMMON//X",
    "      COMMON/B/X,/C/Y",
    "      COMMON/B/X=1",
    "C$AD BINOMIAL-CKP 64  \n      X=1",
    "C$AD NOCHECKPOINT\n      X=1",
    "C$AD BINOMIAL-CKP N\nC c\n      DOWHILE(I=1,2)",
    "      X=1\n$DATA\nX",
    "      X=1                                                               'JUNK'",
];

#[test]
fn what_a_later_pass_looks_at_is_no_fault_of_statements(rt: HostRuntime) {
    for text in &LATER {
        assert!(rt;
            statements(rt.alloc(), text.as_bytes(), Mode::Source).is_ok(),
            "{text}"
        );
    }
}

// The place and the line where the data of texts begin.
#[test]
fn data_begin_behind_their_line(rt: HostRuntime) {
    let found = [
        data_part(b""),
        data_part(b"A"),
        data_part(b"A\n"),
        data_part(b"A\n\nB"),
        data_part(b"$DATA"),
        data_part(b"A\n$DATA\n"),
        data_part(b"A\n$DATA  \r\nX 1\n"),
        data_part(b"$data\n$DATAX\n$DATA\n$DATA\n"),
    ];
    let wanted = [
        (0, 0),
        (1, 1),
        (2, 1),
        (4, 3),
        (5, 1),
        (8, 2),
        (11, 2),
        (19, 3),
    ];
    assert_eq!(rt; found, wanted);
}
