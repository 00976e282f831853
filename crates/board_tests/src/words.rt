// Every word of every format, in both directions at once, over lines of several kinds.
use board::board::Board;
use line::joint::Joint;
use line::line::Line;
use line::table_line::TableLine;
use line::wire::Wire;
use std::process::Abort;
use std::test::Fail;
use terms::note::{ReadNote, Reading, WriteNote};
use terms::report::{Report, ReportKind};

// The data bits of a word: their part of FR, those bits of a byte, and how many they are.
// The tests of the chip have this table too: the two crates of tests share no code, so that each reads alone.
#[derive(Clone, Copy)]
struct Size {
    fr: u8,
    mask: u8,
    bits: u8,
}

const SIZES: [Size; 4] = [
    Size {
        fr: 0x80,
        mask: 0x1f,
        bits: 5,
    },
    Size {
        fr: 0xa0,
        mask: 0x3f,
        bits: 6,
    },
    Size {
        fr: 0xc0,
        mask: 0x7f,
        bits: 7,
    },
    Size {
        fr: 0xe0,
        mask: 0xff,
        bits: 8,
    },
];

// The parts of FR for no parity, and odd, even, mark and space parity.
const PARITIES: [u8; 5] = [0x00, 0x04, 0x0c, 0x14, 0x1c];

// CR with rate code 14, for one stop bit and for two.
const CONTROLS: [(u8, u8); 2] = [(0x0e, 1), (0x2e, 2)];

// At rate code 14.
const CYCLES_OF_A_BIT: u16 = 96;

#[derive(Clone, Copy)]
struct Format {
    cr: u8,
    fr: u8,
    mask: u8,
    // the cycles of a frame
    cycles: u16,
}

fn format_of(size: Size, parity: u8, control: (u8, u8)) -> Format {
    let (cr, stops) = control;
    let bits = 1 + u16::from(size.bits) + u16::from(parity != 0) + u16::from(stops);
    Format {
        cr,
        fr: size.fr | parity,
        mask: size.mask,
        cycles: bits * CYCLES_OF_A_BIT,
    }
}

// How many words each channel has heard.
#[derive(Clone, Copy, Default)]
struct Heard {
    one: u8,
    two: u8,
    all: u16,
}

// All words of a format on their way over a board. A type that has a board asks nothing of its lines: its methods do.
#[derive(Drop)]
struct Run<A, B> {
    board: Board<A, B>,
    format: Format,
    heard: Heard,
}

impl<A: Line, B: Line> Run<A, B> {
    // Word by word channel 1 sends 0 to 255, and channel 2 sends 255 to 0.
    fn send(&mut self, rt: &impl Abort, word: u8) -> Result<(), Fail> {
        let Format { cr, fr, .. } = self.format;
        for (select, sent) in [(3, word), (7, 255 - word)] {
            assert_eq!(rt;
                self.board.write(select, sent)?,
                Some(WriteNote::Stored),
                "CR {cr} FR {fr} frame {word}"
            );
        }
        Ok(())
    }

    // What a channel reports is none, or the next word, which is kept and read fresh at once; whether it was a word.
    fn hear(
        &mut self,
        rt: &impl Abort,
        select: u8,
        report: Option<Report>,
        sent: u8,
    ) -> Result<bool, Fail> {
        let Some(report) = report else {
            return Ok(false);
        };
        let Format { cr, fr, .. } = self.format;
        let word = sent & self.format.mask;
        let kept = Report {
            kind: ReportKind::Kept,
            word,
        };
        assert_eq!(rt; report, kept, "CR {cr} FR {fr} select {select}");
        let fresh = Reading {
            byte: word,
            note: Some(ReadNote::Fresh),
        };
        assert_eq!(rt;
            self.board.read(select)?,
            fresh,
            "CR {cr} FR {fr} select {select}"
        );
        self.heard.all = self.heard.all.wrapping_add(1);
        Ok(true)
    }

    // The cycles of a frame.
    fn frame(&mut self, rt: &impl Abort) -> Result<(), Fail> {
        for _ in 0..self.format.cycles {
            let answer = self.board.cycle();
            if self.hear(rt, 3, answer.one.report, 255 - self.heard.one)? {
                self.heard.one = self.heard.one.wrapping_add(1);
            }
            if self.hear(rt, 7, answer.two.report, self.heard.two)? {
                self.heard.two = self.heard.two.wrapping_add(1);
            }
        }
        Ok(())
    }

    // All words, frame behind frame.
    fn all(&mut self, rt: &impl Abort) -> Result<(), Fail> {
        let Format { cr, fr, .. } = self.format;
        self.board.set_up(cr, fr)?;
        for word in 0..=255 {
            self.send(rt, word)?;
            self.frame(rt)?;
        }
        // for the last ones to come out of the lines
        for _ in 0..2 {
            self.frame(rt)?;
        }
        // 256 words each, so that the count of each is back at 0
        let Heard { one, two, all } = self.heard;
        assert_eq!(rt; all, 512, "CR {cr} FR {fr}");
        assert_eq!(rt; one, 0, "CR {cr} FR {fr}");
        assert_eq!(rt; two, 0, "CR {cr} FR {fr}");
        Ok(())
    }
}

// All words of all formats, one format after the other.
fn carries_all<A: Line + Drop, B: Line + Drop>(
    rt: &impl Abort,
    first: Board<A, B>,
) -> Result<(), Fail> {
    let mut board = first;
    for size in SIZES {
        for parity in PARITIES {
            for control in CONTROLS {
                let mut run = Run {
                    board,
                    format: format_of(size, parity, control),
                    heard: Heard::default(),
                };
                run.all(rt)?;
                board = run.board;
            }
        }
    }
    Ok(())
}

fn long_line() -> Joint<Joint<TableLine, TableLine>, Wire> {
    Joint::new(Joint::new(TableLine::new(), TableLine::new()), Wire)
}

#[test]
fn words_cross_wires(rt: HostRuntime) -> Result<(), Fail> {
    carries_all(&rt, Board::new(Wire, Wire))
}

#[test]
fn words_cross_a_table_line_and_a_wire(rt: HostRuntime) -> Result<(), Fail> {
    carries_all(&rt, Board::new(TableLine::new(), Wire))
}

#[test]
fn words_cross_a_joint_and_a_table_line(rt: HostRuntime) -> Result<(), Fail> {
    carries_all(
        &rt,
        Board::new(Joint::new(Wire, TableLine::new()), TableLine::new()),
    )
}

#[test]
fn words_cross_a_joint_of_a_joint_and_a_joint(rt: HostRuntime) -> Result<(), Fail> {
    carries_all(
        &rt,
        Board::new(long_line(), Joint::new(Wire, TableLine::new())),
    )
}

#[test]
fn words_cross_a_wire_and_a_joint_of_a_joint(rt: HostRuntime) -> Result<(), Fail> {
    carries_all(&rt, Board::new(Wire, long_line()))
}
