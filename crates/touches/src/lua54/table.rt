// What each opcode reads and writes, row for row as specs/lua54/Cases.antt has it; unknown opcodes nothing.
use crate::operands::*;

pub(crate) static ACCESSES: [u64; 128] = [
    // OP_MOVE: R[A] := R[B]
    READ * R_B + WRITE * R_A,
    // OP_LOADI: R[A] := sBx
    WRITE * R_A,
    // OP_LOADF: R[A] := (lua_Number)sBx
    WRITE * R_A,
    // OP_LOADK: R[A] := K[Bx]
    READ * K_BX + WRITE * R_A,
    // OP_LOADKX: R[A] := K[extra arg]
    READ * K_AX_AFTER + WRITE * R_A,
    // OP_LOADFALSE: R[A] := false
    WRITE * R_A,
    // OP_LFALSESKIP: R[A] := false; pc++
    WRITE * R_A,
    // OP_LOADTRUE: R[A] := true
    WRITE * R_A,
    // OP_LOADNIL: R[A], R[A+1], ..., R[A+B] := nil
    WRITE * NILS,
    // OP_GETUPVAL: R[A] := UpValue[B]
    READ * UPVALUE_B + WRITE * R_A,
    // OP_SETUPVAL: UpValue[B] := R[A]
    READ * R_A + WRITE * UPVALUE_B,
    // OP_GETTABUP: R[A] := UpValue[B][K[C]:shortstring]
    READ * UPVALUE_B + READ_2 * K_C + WRITE * R_A,
    // OP_GETTABLE: R[A] := R[B][R[C]]
    READ * R_B + READ_2 * R_C + WRITE * R_A,
    // OP_GETI: R[A] := R[B][C]
    READ * R_B + WRITE * R_A,
    // OP_GETFIELD: R[A] := R[B][K[C]:shortstring]
    READ * R_B + READ_2 * K_C + WRITE * R_A,
    // OP_SETTABUP: UpValue[A][K[B]:shortstring] := RK(C)
    READ * UPVALUE_A + READ_2 * K_B + READ_3 * RK_C,
    // OP_SETTABLE: R[A][R[B]] := RK(C)
    READ * R_A + READ_2 * R_B + READ_3 * RK_C,
    // OP_SETI: R[A][B] := RK(C)
    READ * R_A + READ_2 * RK_C,
    // OP_SETFIELD: R[A][K[B]:shortstring] := RK(C)
    READ * R_A + READ_2 * K_B + READ_3 * RK_C,
    // OP_NEWTABLE: R[A] := {}
    WRITE * R_A,
    // OP_SELF: R[A+1] := R[B]; R[A] := R[B][RK(C):string]
    READ * R_B + READ_2 * RK_C + WRITE * R_A_1 + WRITE_2 * R_A,
    // OP_ADDI: R[A] := R[B] + sC; pc++
    READ * R_B + EDGE * P_2 + ON_EDGE * R_A,
    // OP_ADDK: R[A] := R[B] + K[C]; pc++
    READ * R_B + READ_2 * K_C + EDGE * P_2 + ON_EDGE * R_A,
    // OP_SUBK: R[A] := R[B] - K[C]; pc++
    READ * R_B + READ_2 * K_C + EDGE * P_2 + ON_EDGE * R_A,
    // OP_MULK: R[A] := R[B] * K[C]; pc++
    READ * R_B + READ_2 * K_C + EDGE * P_2 + ON_EDGE * R_A,
    // OP_MODK: R[A] := R[B] % K[C]; pc++
    READ * R_B + READ_2 * K_C + EDGE * P_2 + ON_EDGE * R_A,
    // OP_POWK: R[A] := R[B] ^ K[C]; pc++
    READ * R_B + READ_2 * K_C + EDGE * P_2 + ON_EDGE * R_A,
    // OP_DIVK: R[A] := R[B] / K[C]; pc++
    READ * R_B + READ_2 * K_C + EDGE * P_2 + ON_EDGE * R_A,
    // OP_IDIVK: R[A] := R[B] // K[C]; pc++
    READ * R_B + READ_2 * K_C + EDGE * P_2 + ON_EDGE * R_A,
    // OP_BANDK: R[A] := R[B] & K[C]; pc++
    READ * R_B + READ_2 * K_C + EDGE * P_2 + ON_EDGE * R_A,
    // OP_BORK: R[A] := R[B] | K[C]; pc++
    READ * R_B + READ_2 * K_C + EDGE * P_2 + ON_EDGE * R_A,
    // OP_BXORK: R[A] := R[B] ~ K[C]; pc++
    READ * R_B + READ_2 * K_C + EDGE * P_2 + ON_EDGE * R_A,
    // OP_SHRI: R[A] := R[B] >> sC; pc++
    READ * R_B + EDGE * P_2 + ON_EDGE * R_A,
    // OP_SHLI: R[A] := sC << R[B]; pc++
    READ * R_B + EDGE * P_2 + ON_EDGE * R_A,
    // OP_ADD: R[A] := R[B] + R[C]; pc++
    READ * R_B + READ_2 * R_C + EDGE * P_2 + ON_EDGE * R_A,
    // OP_SUB: R[A] := R[B] - R[C]; pc++
    READ * R_B + READ_2 * R_C + EDGE * P_2 + ON_EDGE * R_A,
    // OP_MUL: R[A] := R[B] * R[C]; pc++
    READ * R_B + READ_2 * R_C + EDGE * P_2 + ON_EDGE * R_A,
    // OP_MOD: R[A] := R[B] % R[C]; pc++
    READ * R_B + READ_2 * R_C + EDGE * P_2 + ON_EDGE * R_A,
    // OP_POW: R[A] := R[B] ^ R[C]; pc++
    READ * R_B + READ_2 * R_C + EDGE * P_2 + ON_EDGE * R_A,
    // OP_DIV: R[A] := R[B] / R[C]; pc++
    READ * R_B + READ_2 * R_C + EDGE * P_2 + ON_EDGE * R_A,
    // OP_IDIV: R[A] := R[B] // R[C]; pc++
    READ * R_B + READ_2 * R_C + EDGE * P_2 + ON_EDGE * R_A,
    // OP_BAND: R[A] := R[B] & R[C]; pc++
    READ * R_B + READ_2 * R_C + EDGE * P_2 + ON_EDGE * R_A,
    // OP_BOR: R[A] := R[B] | R[C]; pc++
    READ * R_B + READ_2 * R_C + EDGE * P_2 + ON_EDGE * R_A,
    // OP_BXOR: R[A] := R[B] ~ R[C]; pc++
    READ * R_B + READ_2 * R_C + EDGE * P_2 + ON_EDGE * R_A,
    // OP_SHL: R[A] := R[B] << R[C]; pc++
    READ * R_B + READ_2 * R_C + EDGE * P_2 + ON_EDGE * R_A,
    // OP_SHR: R[A] := R[B] >> R[C]; pc++
    READ * R_B + READ_2 * R_C + EDGE * P_2 + ON_EDGE * R_A,
    // OP_MMBIN: call C metamethod over R[A] and R[B]
    READ * R_A + READ_2 * R_B + WRITE * R_A_BEFORE,
    // OP_MMBINI: call C metamethod over R[A] and sB
    READ * R_A + WRITE * R_A_BEFORE,
    // OP_MMBINK: call C metamethod over R[A] and K[B]
    READ * R_A + READ_2 * K_B + WRITE * R_A_BEFORE,
    // OP_UNM: R[A] := -R[B]
    READ * R_B + WRITE * R_A,
    // OP_BNOT: R[A] := ~R[B]
    READ * R_B + WRITE * R_A,
    // OP_NOT: R[A] := not R[B]
    READ * R_B + WRITE * R_A,
    // OP_LEN: R[A] := #R[B]
    READ * R_B + WRITE * R_A,
    // OP_CONCAT: R[A] := R[A].. ... ..R[A + B - 1]
    READ * PIECES + WRITE * R_A,
    // OP_CLOSE: close all upvalues >= R[A]
    0,
    // OP_TBC: mark variable A "to be closed"
    READ * R_A,
    // OP_JMP: pc += sJ
    0,
    // OP_EQ: if ((R[A] == R[B]) ~= k) then pc++
    READ * R_A + READ_2 * R_B,
    // OP_LT: if ((R[A] <  R[B]) ~= k) then pc++
    READ * R_A + READ_2 * R_B,
    // OP_LE: if ((R[A] <= R[B]) ~= k) then pc++
    READ * R_A + READ_2 * R_B,
    // OP_EQK: if ((R[A] == K[B]) ~= k) then pc++
    READ * R_A + READ_2 * K_B,
    // OP_EQI: if ((R[A] == sB) ~= k) then pc++
    READ * R_A,
    // OP_LTI: if ((R[A] < sB) ~= k) then pc++
    READ * R_A,
    // OP_LEI: if ((R[A] <= sB) ~= k) then pc++
    READ * R_A,
    // OP_GTI: if ((R[A] > sB) ~= k) then pc++
    READ * R_A,
    // OP_GEI: if ((R[A] >= sB) ~= k) then pc++
    READ * R_A,
    // OP_TEST: if (not R[A] == k) then pc++
    READ * R_A,
    // OP_TESTSET: if (not R[B] == k) then pc++ else R[A] := R[B]
    READ * R_B + EDGE * P_1 + ON_EDGE * R_A,
    // OP_CALL: R[A], ... ,R[A+C-2] := R[A](R[A+1], ... ,R[A+B-1])
    READ * R_A + READ_2 * ARGUMENTS + WRITE * RESULTS,
    // OP_TAILCALL: return R[A](R[A+1], ... ,R[A+B-1])
    READ * R_A + READ_2 * ARGUMENTS,
    // OP_RETURN: return R[A], ... ,R[A+B-2]
    READ * RETURNED,
    // OP_RETURN0: return
    0,
    // OP_RETURN1: return R[A]
    READ * R_A,
    // OP_FORLOOP: if the loop goes on, R[A+1], R[A] and R[A+3] are set; pc -= Bx
    READ * R_A
        + READ_2 * R_A_1
        + READ_3 * R_A_2
        + EDGE * P_1_BX
        + ON_EDGE * R_A
        + ON_EDGE_2 * R_A_1
        + ON_EDGE_3 * R_A_3,
    // OP_FORPREP: the integer loop sets R[A+3] first; if not to run then pc += Bx + 1, else
    // R[A] to R[A+3] are prepared
    READ * R_A
        + READ_2 * R_A_1
        + READ_3 * R_A_2
        + WRITE * R_A_3
        + EDGE * P_1
        + ON_EDGE * R_A
        + ON_EDGE_2 * R_A_1
        + ON_EDGE_3 * R_A_2,
    // OP_TFORPREP: create upvalue for R[A + 3]; pc += Bx
    READ * R_A_3,
    // OP_TFORCALL: R[A+4], ... ,R[A+3+C] := R[A](R[A+1], R[A+2])
    READ * R_A + READ_2 * R_A_1 + READ_3 * R_A_2 + WRITE * ITERATED,
    // OP_TFORLOOP: if R[A+4] ~= nil then { R[A+2] = R[A+4]; pc -= Bx }
    READ * R_A_4 + EDGE * P_1_BX + ON_EDGE * R_A_2,
    // OP_SETLIST: R[A][C+i] := R[A+i], 1 <= i <= B
    READ * R_A + READ_2 * ELEMENTS,
    // OP_CLOSURE: R[A] := closure(KPROTO[Bx])
    WRITE * R_A,
    // OP_VARARG: R[A], R[A+1], ..., R[A+C-2] = vararg
    WRITE * RESULTS,
    // OP_VARARGPREP: (adjust vararg parameters)
    0,
    // OP_EXTRAARG: extra (larger) argument for previous opcode
    0,
    // unknown
    0,
    0,
    0,
    0,
    0,
    0,
    0,
    0,
    0,
    0,
    0,
    0,
    0,
    0,
    0,
    0,
    0,
    0,
    0,
    0,
    0,
    0,
    0,
    0,
    0,
    0,
    0,
    0,
    0,
    0,
    0,
    0,
    0,
    0,
    0,
    0,
    0,
    0,
    0,
    0,
    0,
    0,
    0,
    0,
    0,
];
