//! What help says, and the word that was meant.

use std::alloc::{AllocError, Global};
use strsim::osa_distance;

/// All commands, on one screen.
pub(crate) const ALL: &str = "\
run (r)                    launches the file as it is now, from its beginning
continue (c) [N]           on to a breakpoint     step (s), next (n) [N]
finish (fin) [N]           to the end of the call stepi (si), nexti (ni) [N]
back (rsi) [N]             one instruction back
reverse-continue (rc) [N]  back to a breakpoint   Enter repeats the last move
change EXPR                on until EXPR has another value: who did it?
back-to-change EXPR        the same, back
break (b) WHERE [if EXPR] [hit N]                 tbreak (tb): once
log WHERE TEXT             says TEXT there        delete (d) [N]
breakpoints (i)            shows them
print (p) EXPR             a value                print REG = VALUE
display EXPR               a value at each stop   undisplay [N]
set REG = VALUE            sets a register        set [ADDRESS] = VALUE
registers (regs) [NAME..]  shows them             stack
x EXPR [N]                 N words of memory      xb EXPR [N]: bytes
disassemble (disas) [WHERE] [N]                   labels
backtrace (bt)             the calls              where (f)
list (l) [WHERE]           the text               quit (q)
WHERE is a line, a label or *ADDRESS. EXPR knows registers, labels, numbers,
'c', [ADDRESS] and the operators of C. While the program runs, Enter stops it;
Ctrl-C ends all. help WORD says more.
";

// What help says of a word: the words for one thing, and the text.
struct Topic {
    words: &'static [&'static str],
    text: &'static str,
}

const TOPICS: [Topic; 25] = [
    Topic {
        words: &["run", "r", "restart"],
        text: "\
run: reads the file again and launches it from its beginning. Breakpoints and
displays stay. If the file does not assemble, its errors are shown.
    run
",
    },
    Topic {
        words: &["continue", "c"],
        text: "\
continue [N]: runs until something stops the program: a breakpoint, an error,
its end. With N, until that has happened N times at breakpoints.
    continue
",
    },
    Topic {
        words: &["step", "s"],
        text: "\
step [N]: on to the next line that is come to, also in a call; N times.
    step 3
",
    },
    Topic {
        words: &["next", "n"],
        text: "\
next [N]: on to the next line, over calls; N times.
    next
",
    },
    Topic {
        words: &["finish", "fin"],
        text: "\
finish [N]: on until the present call has returned; N times. a0 has its value.
    finish
",
    },
    Topic {
        words: &["stepi", "si", "nexti", "ni"],
        text: "\
stepi [N], nexti [N]: one instruction on; nexti goes over a call. N times.
    stepi 10
",
    },
    Topic {
        words: &["back", "reverse-stepi", "rsi"],
        text: "\
back [N]: takes the last instruction back; N times. Registers and memory are
then as they were before it. The last 65,536 instructions are recorded.
    back 2
",
    },
    Topic {
        words: &["reverse-continue", "rc"],
        text: "\
reverse-continue [N]: goes back until a breakpoint is met, or the oldest
instruction that is recorded.
    rc
",
    },
    Topic {
        words: &["change", "back-to-change"],
        text: "\
change EXPR, back-to-change EXPR: goes on, or back, one instruction after the
other until the value of EXPR is another one, and shows the instruction that
changed it. It gives up after 1,000,000 instructions. Of a program with more
than 1,024 it looks at those of its text alone, not at any that it wrote itself.
    back-to-change ra
    change [table + 4]
",
    },
    Topic {
        words: &["break", "b", "tbreak", "tb"],
        text: "\
break WHERE [if EXPR] [hit N]: stops there, if EXPR is not 0, from the Nth time
on. WHERE is a line, a label or *ADDRESS. tbreak: once, then it is deleted.
    break 36 if a0 == 5
    break sort hit 3
    tbreak *0x10010
",
    },
    Topic {
        words: &["log"],
        text: "\
log WHERE TEXT: says TEXT whenever the program comes there, and does not stop.
    log 36 a smaller word
",
    },
    Topic {
        words: &["delete", "d"],
        text: "\
delete [N]: the breakpoint of this number goes, or all.
    delete 1
",
    },
    Topic {
        words: &["breakpoints", "i"],
        text: "\
breakpoints: shows them with their numbers and addresses.
    breakpoints
",
    },
    Topic {
        words: &["print", "p"],
        text: "\
print EXPR: its value in hexadecimal and decimal, below zero also with its
sign, as a character where it is one, and the label that lies there.
print REG = VALUE sets a register.
    print a0 * 2
    print [sp + 4]
",
    },
    Topic {
        words: &["display"],
        text: "\
display EXPR: shows its value now and at each stop.
    display [sp]
",
    },
    Topic {
        words: &["undisplay"],
        text: "\
undisplay [N]: the display of this number goes, or all.
    undisplay 1
",
    },
    Topic {
        words: &["set"],
        text: "\
set REG = VALUE, set [ADDRESS] = VALUE: sets a register, or a word of memory,
to the value of an expression.
    set a0 = 5
    set [table] = a0 + 1
",
    },
    Topic {
        words: &["registers", "regs"],
        text: "\
registers [NAME..]: shows these, or all.
    registers a0 a1 sp
",
    },
    Topic {
        words: &["stack"],
        text: "\
stack: the words from sp up, 16 at most.
    stack
",
    },
    Topic {
        words: &["x", "xb"],
        text: "\
x EXPR [N]: N words of memory from the value of EXPR on, 4 where no N is given.
xb EXPR [N]: bytes, and the characters that they are; 16.
    x table 8
    xb sp 32
",
    },
    Topic {
        words: &["disassemble", "disas"],
        text: "\
disassemble [WHERE] [N]: N instructions from WHERE on, or from pc; 8 where no N
is given.
    disas sort 4
",
    },
    Topic {
        words: &["backtrace", "bt"],
        text: "\
backtrace: the calls, the innermost first, 20 at most.
    bt
",
    },
    Topic {
        words: &["labels"],
        text: "\
labels: the labels and their addresses.
    labels
",
    },
    Topic {
        words: &["where", "frame", "f", "list", "l"],
        text: "\
where: where the program stands, once more. list [WHERE]: the text round WHERE,
or round there; > is where the program stands, * a line with a breakpoint.
    list sort
",
    },
    Topic {
        words: &["help", "h", "quit", "q", "exit"],
        text: "\
help [WORD]: this. quit: ends, and the program with it.
    help break
",
    },
];

// All of them. A call, so that a proof about one who looks through them holds none of their texts.
fn topics() -> &'static [Topic] {
    &TOPICS
}

/// What help says of a word.
pub(crate) fn of(word: &str) -> Option<&'static str> {
    for topic in topics() {
        if has(topic.words, word) {
            return Some(topic.text);
        }
    }
    None
}

fn has(words: &[&str], word: &str) -> bool {
    words.iter().any(|known| *known == word)
}

/// How many bytes a word has at most that others are compared with.
const LONGEST: usize = 24;

/// The word that is nearest to one that is none, if one is near. It fails where no memory is left.
pub(crate) fn nearest(alloc: Global, word: &str) -> Result<Option<&'static str>, AllocError> {
    let mut best = None;
    let mut least = 3;
    if word.len() > LONGEST {
        return Ok(None);
    }
    for topic in topics() {
        for known in topic.words.iter() {
            let edits = osa_distance(alloc, word, known)?;
            if edits < least && edits < known.len() {
                least = edits;
                best = Some(*known);
            }
        }
    }
    Ok(best)
}
