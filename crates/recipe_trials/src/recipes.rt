// Texts at each limit of a recipe and one over, with their answers as they stand in a record.
use shelf::NotKept;
use sitting::{Reply, Session};
use std::alloc::{AllocError, Global};
use std::process::Abort;
use std::test::Fail;

// A text: what comes first, then a piece so many times, then what comes last.
#[derive(Clone, Copy)]
struct Row {
    first: &'static str,
    piece: &'static str,
    times: usize,
    last: &'static str,
    told: &'static str,
}

impl Row {
    fn text(&self, heap: Global) -> Result<Vec<u8>, AllocError> {
        let mut text = Vec::from_slice(heap, self.first.as_bytes())?;
        for _ in 0..self.times {
            text.extend_from_slice(self.piece.as_bytes())?;
        }
        text.extend_from_slice(self.last.as_bytes())?;
        Ok(text)
    }
}

fn answers(rt: &impl Abort, heap: Global, rows: &[Row]) -> Result<(), Fail> {
    let mut session = Session::new(heap)?;
    for row in rows {
        let reply = session.load(heap, b"trial", row.text(heap)?)?;
        let told = format!(in heap; "{reply}")?;
        assert!(rt; told.as_str() == row.told, "{}", row.told);
    }
    Ok(())
}

const TOKENS_AND_LENGTH: [Row; 9] = [
    Row {
        first: "let f(x) = x in 1",
        piece: " ",
        times: 59983,
        last: "",
        told: "accepted, 6 words",
    },
    Row {
        first: "let f(x) = x in 1",
        piece: " ",
        times: 59984,
        last: "",
        told: "refused 1 at 60000 the text is too long",
    },
    Row {
        first: "let f(x) = x in 268435455",
        piece: "",
        times: 0,
        last: "",
        told: "accepted, 6 words",
    },
    Row {
        first: "let f(x) = x in 268435456",
        piece: "",
        times: 0,
        last: "",
        told: "refused 3 at 16 number too large",
    },
    Row {
        first: "let f(x) = x in 0",
        piece: "0",
        times: 400,
        last: "1",
        told: "accepted, 6 words",
    },
    Row {
        first: "let ",
        piece: "f",
        times: 16,
        last: "(x) = x in 1",
        told: "accepted, 6 words",
    },
    Row {
        first: "let ",
        piece: "f",
        times: 17,
        last: "(x) = x in 1",
        told: "refused 4 at 4 name too long",
    },
    Row {
        first: "let f(x) = x in\n\t1 ? 2",
        piece: "",
        times: 0,
        last: "",
        told: "refused 2 at 19 unknown byte",
    },
    Row {
        first: "let f(x) = ) in\n268435456 ? 2",
        piece: "",
        times: 0,
        last: "",
        told: "refused 3 at 16 number too large",
    },
];

#[test]
fn tokens_and_length(rt: HostRuntime) -> Result<(), Fail> {
    answers(&rt, rt.alloc(), &TOKENS_AND_LENGTH)
}

const GRAMMAR_AND_ITS_LIMITS: [Row; 9] = [
    Row {
        first: "",
        piece: "",
        times: 0,
        last: "",
        told: "refused 5 at 0 grammar",
    },
    Row {
        first: "let f(x) = x in\n",
        piece: "",
        times: 0,
        last: "",
        told: "refused 5 at 16 grammar",
    },
    Row {
        first: "let f(x) = x\nin 1\n\n  2",
        piece: "",
        times: 0,
        last: "",
        told: "refused 5 at 21 grammar",
    },
    Row {
        first: "let f(x) = x in ",
        piece: "(",
        times: 32,
        last: "1))))))))))))))))))))))))))))))))",
        told: "accepted, 6 words",
    },
    Row {
        first: "let f(x) = x in ",
        piece: "(",
        times: 33,
        last: "1)))))))))))))))))))))))))))))))))",
        told: "refused 6 at 48 nested too deep",
    },
    Row {
        first: "let f(a,b,c,d,e,g,h,i) = a in 1",
        piece: "",
        times: 0,
        last: "",
        told: "accepted, 6 words",
    },
    Row {
        first: "let f(a,b,c,d,e,g,h,i,j) = a in 1",
        piece: "",
        times: 0,
        last: "",
        told: "refused 8 at 22 too many parameters",
    },
    Row {
        first: "let f(x) = x in ",
        piece: "1+",
        times: 999,
        last: "1",
        told: "accepted, 2004 words",
    },
    Row {
        first: "let f(x) = f(x) in ",
        piece: "1+",
        times: 999,
        last: "1",
        told: "refused 14 at 2017 too many constructs",
    },
];

#[test]
fn grammar_and_its_limits(rt: HostRuntime) -> Result<(), Fail> {
    answers(&rt, rt.alloc(), &GRAMMAR_AND_ITS_LIMITS)
}

const NAMES_AND_FRAMES: [Row; 12] = [
    Row {
        first: "let a(x)=x b(x)=x c(x)=x d(x)=x e(x)=x f(x)=x g(x)=x h(x)=x i(x)=x j(x)=x k(x)=x l(x)=x m(x)=x n(x)=x o(x)=x p(x)=x q(x)=x r(x)=x s(x)=x t(x)=x u(x)=x v(x)=x w(x)=x x(x)=x y(x)=x z(x)=x A(x)=x B(x)=x C(x)=x D(x)=x E(x)=x F(x)=x in 1",
        piece: "",
        times: 0,
        last: "",
        told: "accepted, 99 words",
    },
    Row {
        first: "let a(x)=x b(x)=x c(x)=x d(x)=x e(x)=x f(x)=x g(x)=x h(x)=x i(x)=x j(x)=x k(x)=x l(x)=x m(x)=x n(x)=x o(x)=x p(x)=x q(x)=x r(x)=x s(x)=x t(x)=x u(x)=x v(x)=x w(x)=x x(x)=x y(x)=x z(x)=x A(x)=x B(x)=x C(x)=x D(x)=x E(x)=x F(x)=x G(x)=x in 1",
        piece: "",
        times: 0,
        last: "",
        told: "refused 7 at 228 too many functions",
    },
    Row {
        first: "let f(x) = x\n    f(y) = y in 1",
        piece: "",
        times: 0,
        last: "",
        told: "refused 9 at 17 declared twice",
    },
    Row {
        first: "let f(x) = x\n    g(x) = x in f(1)+g(2)",
        piece: "",
        times: 0,
        last: "",
        told: "accepted, 13 words",
    },
    Row {
        first: "let f(x) = x in\n  y",
        piece: "",
        times: 0,
        last: "",
        told: "refused 10 at 18 unknown name",
    },
    Row {
        first: "let f(x) = x in\n  f(1, 2)",
        piece: "",
        times: 0,
        last: "",
        told: "refused 11 at 18 number of arguments",
    },
    Row {
        first: "let f(x) = x in weigh 64",
        piece: "",
        times: 0,
        last: "",
        told: "accepted, 6 words",
    },
    Row {
        first: "let f(x) = x in weigh 65",
        piece: "",
        times: 0,
        last: "",
        told: "refused 13 at 22 no such channel",
    },
    Row {
        first: "let f(x) = x in weigh 0",
        piece: "",
        times: 0,
        last: "",
        told: "refused 13 at 22 no such channel",
    },
    Row {
        first: "let f(x) = x in ",
        piece: "1+(",
        times: 31,
        last: "1)))))))))))))))))))))))))))))))",
        told: "accepted, 68 words",
    },
    Row {
        first: "let f(x) = x in ",
        piece: "1+(",
        times: 32,
        last: "1))))))))))))))))))))))))))))))))",
        told: "refused 12 at 13 frame too large",
    },
    Row {
        first: "let f(x) = x in ",
        piece: "1+(",
        times: 33,
        last: "1)))))))))))))))))))))))))))))))))",
        told: "refused 6 at 114 nested too deep",
    },
];

#[test]
fn names_and_frames(rt: HostRuntime) -> Result<(), Fail> {
    answers(&rt, rt.alloc(), &NAMES_AND_FRAMES)
}

// Room for an image and a work table, at the limit and one under; a shelf takes a hundred names.
#[test]
fn room_and_names_kept(rt: HostRuntime) -> Result<(), Fail> {
    let heap = rt.alloc();
    let mut session = Session::new(heap)?;
    for (line, expected) in [
        ("room 4095 2000", Some(15u8)),
        ("room 4096 1999", Some(15)),
        ("room 4096 2000", None),
        ("room 100000 100000", None),
    ] {
        let _ = session.take(heap, line.as_bytes())?;
        let text = Vec::from_slice(heap, b"let f(x) = x in 1")?;
        let cause = match session.load(heap, b"trial", text)? {
            Reply::NotKept(NotKept::Refused { refusal, .. }) => Some(refusal.cause.number()),
            _ => None,
        };
        assert!(rt; cause == expected, "{}", line);
    }
    for i in 1..101u32 {
        let name = format!(in heap; "r{i}")?;
        let text = Vec::from_slice(heap, b"let f(x) = x in 1")?;
        let told = session.load(heap, name.as_bytes(), text)?;
        assert!(rt; matches!(told, Reply::Accepted(6)) == (i < 100));
    }
    Ok(())
}
