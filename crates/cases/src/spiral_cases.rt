// `spiral SIZE`, whose answer is the number of the refusal and the fresh state; `spiral_step STATE`, whose answer is the
// number, the point or `none`, and the state after it. A state is the nine fields of a spiral, in their order.
use crate::forms::{call, is_case};
use crate::putting::Answer;
use crate::reading::at;
use spiral::SpiralWalker;

// Puts the answer to a case of a spiral.
pub fn answer(line: &[u8], out: &mut Answer) {
    match call(line) {
        b"spiral" if is_case(line, b"n") => fresh(at(line, 1), out),
        b"spiral_step" if is_case(line, b"iiiiiiinn") => step(state_of(line), out),
        _ => {}
    }
}

fn fresh(size: usize, out: &mut Answer) {
    let answer = spiral::spiral(size);
    out.number(answer);
    if let Ok(s) = answer {
        put_state(s, out);
    }
}

// What a step from the state `s` answers, and the state after it.
fn step(s: SpiralWalker, out: &mut Answer) {
    let answer = spiral::spiral_step(s);
    out.number(answer);
    match answer {
        Ok(Some(step)) => {
            out.point(step.point);
            put_state(step.next, out);
        }
        Ok(None) => {
            out.word(b"none");
            put_state(s, out);
        }
        Err(_) => put_state(s, out),
    }
}

fn state_of(line: &[u8]) -> SpiralWalker {
    SpiralWalker {
        x: at(line, 1),
        y: at(line, 2),
        dir: at(line, 3),
        gx: at(line, 4),
        gy: at(line, 5),
        sq: at(line, 6),
        cc: at(line, 7),
        area: at(line, 8),
        step: at(line, 9),
    }
}

fn put_state(s: SpiralWalker, out: &mut Answer) {
    for field in [s.x, s.y, s.dir, s.gx, s.gy, s.sq, s.cc] {
        out.value(field);
    }
    out.value(s.area);
    out.value(s.step);
}
