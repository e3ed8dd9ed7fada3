// What each opcode of Lua 5.3 reads and writes, row for row as specs/lua53/Cases.antt has
// it; unknown opcodes nothing.
use crate::operands::*;

pub(crate) static ACCESSES_53: [u64; 64] = [
    // OP_MOVE: R(A) := R(B)
    READ * R_B + WRITE * R_A,
    // OP_LOADK: R(A) := Kst(Bx)
    READ * K_BX + WRITE * R_A,
    // OP_LOADKX: R(A) := Kst(extra arg)
    READ * K_AX_AFTER + WRITE * R_A,
    // OP_LOADBOOL: R(A) := (Bool)B; if (C) pc++
    WRITE * R_A,
    // OP_LOADNIL: R(A), R(A+1), ..., R(A+B) := nil
    WRITE * NILS,
    // OP_GETUPVAL: R(A) := UpValue[B]
    READ * UPVALUE_B + WRITE * R_A,
    // OP_GETTABUP: R(A) := UpValue[B][RK(C)]
    READ * UPVALUE_B + READ_2 * RK_C_BIT + WRITE * R_A,
    // OP_GETTABLE: R(A) := R(B)[RK(C)]
    READ * R_B + READ_2 * RK_C_BIT + WRITE * R_A,
    // OP_SETTABUP: UpValue[A][RK(B)] := RK(C)
    READ * UPVALUE_A + READ_2 * RK_B_BIT + READ_3 * RK_C_BIT,
    // OP_SETUPVAL: UpValue[B] := R(A)
    READ * R_A + WRITE * UPVALUE_B,
    // OP_SETTABLE: R(A)[RK(B)] := RK(C)
    READ * R_A + READ_2 * RK_B_BIT + READ_3 * RK_C_BIT,
    // OP_NEWTABLE: R(A) := {} (size = B,C)
    WRITE * R_A,
    // OP_SELF: R(A+1) := R(B); R(A) := R(B)[RK(C)]
    READ * R_B + READ_2 * RK_C_BIT + WRITE * R_A_1 + WRITE_2 * R_A,
    // OP_ADD: R(A) := RK(B) + RK(C)
    READ * RK_B_BIT + READ_2 * RK_C_BIT + WRITE * R_A,
    // OP_SUB: R(A) := RK(B) - RK(C)
    READ * RK_B_BIT + READ_2 * RK_C_BIT + WRITE * R_A,
    // OP_MUL: R(A) := RK(B) * RK(C)
    READ * RK_B_BIT + READ_2 * RK_C_BIT + WRITE * R_A,
    // OP_MOD: R(A) := RK(B) % RK(C)
    READ * RK_B_BIT + READ_2 * RK_C_BIT + WRITE * R_A,
    // OP_POW: R(A) := RK(B) ^ RK(C)
    READ * RK_B_BIT + READ_2 * RK_C_BIT + WRITE * R_A,
    // OP_DIV: R(A) := RK(B) / RK(C)
    READ * RK_B_BIT + READ_2 * RK_C_BIT + WRITE * R_A,
    // OP_IDIV: R(A) := RK(B) // RK(C)
    READ * RK_B_BIT + READ_2 * RK_C_BIT + WRITE * R_A,
    // OP_BAND: R(A) := RK(B) & RK(C)
    READ * RK_B_BIT + READ_2 * RK_C_BIT + WRITE * R_A,
    // OP_BOR: R(A) := RK(B) | RK(C)
    READ * RK_B_BIT + READ_2 * RK_C_BIT + WRITE * R_A,
    // OP_BXOR: R(A) := RK(B) ~ RK(C)
    READ * RK_B_BIT + READ_2 * RK_C_BIT + WRITE * R_A,
    // OP_SHL: R(A) := RK(B) << RK(C)
    READ * RK_B_BIT + READ_2 * RK_C_BIT + WRITE * R_A,
    // OP_SHR: R(A) := RK(B) >> RK(C)
    READ * RK_B_BIT + READ_2 * RK_C_BIT + WRITE * R_A,
    // OP_UNM: R(A) := -R(B)
    READ * R_B + WRITE * R_A,
    // OP_BNOT: R(A) := ~R(B)
    READ * R_B + WRITE * R_A,
    // OP_NOT: R(A) := not R(B)
    READ * R_B + WRITE * R_A,
    // OP_LEN: R(A) := length of R(B)
    READ * R_B + WRITE * R_A,
    // OP_CONCAT: R(A) := R(B).. ... ..R(C)
    READ * CONCATENATED + WRITE * R_A,
    // OP_JMP: pc+=sBx; if (A) close all upvalues >= R(A - 1)
    0,
    // OP_EQ: if ((RK(B) == RK(C)) ~= A) then pc++
    READ * RK_B_BIT + READ_2 * RK_C_BIT,
    // OP_LT: if ((RK(B) <  RK(C)) ~= A) then pc++
    READ * RK_B_BIT + READ_2 * RK_C_BIT,
    // OP_LE: if ((RK(B) <= RK(C)) ~= A) then pc++
    READ * RK_B_BIT + READ_2 * RK_C_BIT,
    // OP_TEST: if not (R(A) <=> C) then pc++
    READ * R_A,
    // OP_TESTSET: if (R(B) <=> C) then R(A) := R(B) else pc++
    READ * R_B + EDGE * P_1 + ON_EDGE * R_A,
    // OP_CALL: R(A), ... ,R(A+C-2) := R(A)(R(A+1), ... ,R(A+B-1))
    READ * R_A + READ_2 * ARGUMENTS + WRITE * RESULTS,
    // OP_TAILCALL: return R(A)(R(A+1), ... ,R(A+B-1))
    READ * R_A + READ_2 * ARGUMENTS,
    // OP_RETURN: return R(A), ... ,R(A+B-2)
    READ * RETURNED,
    // OP_FORLOOP: if the loop goes on: index and control variable are set, R(A), R(A+3); pc+=sBx
    READ * R_A
        + READ_2 * R_A_1
        + READ_3 * R_A_2
        + EDGE * P_1_SBX
        + ON_EDGE * R_A
        + ON_EDGE_2 * R_A_3,
    // OP_FORPREP: R(A)-=R(A+2); pc+=sBx: limit, and in a float loop the step, are set too
    READ * R_A + READ_2 * R_A_1 + READ_3 * R_A_2 + WRITE * R_A + WRITE_2 * R_A_1 + WRITE_3 * R_A_2,
    // OP_TFORCALL: R(A+3), ... ,R(A+2+C) := R(A)(R(A+1), R(A+2))
    READ * R_A + READ_2 * R_A_1 + READ_3 * R_A_2 + WRITE * CALLED,
    // OP_TFORLOOP: if R(A+1) ~= nil then { R(A)=R(A+1); pc += sBx }
    READ * R_A_1 + EDGE * P_1_SBX + ON_EDGE * R_A,
    // OP_SETLIST: R(A)[(C-1)*FPF+i] := R(A+i), 1 <= i <= B
    READ * R_A + READ_2 * ELEMENTS,
    // OP_CLOSURE: R(A) := closure(KPROTO[Bx])
    WRITE * R_A,
    // OP_VARARG: R(A), R(A+1), ..., R(A+B-2) = vararg
    WRITE * RETURNED,
    // OP_EXTRAARG: extra (larger) argument for previous opcode: always bad
    0,
    // unknown
    0,
    0,
    0,
    0,
    0,
    0,
    0,
    0,
    0,
    0,
    0,
    0,
    0,
    0,
    0,
    0,
    0,
];
