// Lists of eight records, lent to lift_proto_lua54: the answer, and what each place holds afterwards.
// The stored sums are of luad's own records where the function is accepted and the place is below n, else of
// the record that was lent (compare/SAMPLE.md).
use crate::sums;
use common::c::FlatAnswer;
use print_cases::{end, numbers, text};
use records::walk::lift_proto_lua54;
use std::io::Stdout;
use values::few::Few;
use values::ir::{Confidence, EffectTarget, ImplicitEffect, SemanticInstruction, TypedOperand};
use values::model::Prototype;

// A record that no word has.
fn unwritten() -> SemanticInstruction {
    let operand = TypedOperand::ExtraArg { value: 999 };
    let target = EffectTarget::JumpTarget { pc: 999 };
    SemanticInstruction {
        pc: 999,
        raw_word: 4294967295,
        opcode: 127,
        operands: Few::of([operand; 4]),
        reads: Few::of([target; 3]),
        writes: Few::of([target; 2]),
        implicit_effect: Some(ImplicitEffect::CloseUpvalues { min_register: 255 }),
        metamethod_fallback: Some(25),
        jump_target: Some(999),
        companion_pc: Some(999),
        confidence: Confidence::Reviewed,
    }
}

// The answer, and a line for each place: its record's pc, word and sum.
pub fn show(out: Stdout, label: &[u8], proto: &Prototype<'_>) {
    let mut records = [unwritten(); 8];
    let answer = FlatAnswer::from(lift_proto_lua54(
        proto.words,
        proto.tags,
        proto.payloads,
        proto.names,
        proto.bytes,
        &mut records,
    ));
    text(out, label);
    numbers(out, &[answer.number, answer.place]);
    end(out);
    for (i, &record) in records.iter().enumerate() {
        text(out, b"place");
        numbers(
            out,
            &[
                i as u64,
                record.pc as u64,
                record.raw_word as u64,
                sums::record(0, record),
            ],
        );
        end(out);
    }
}
