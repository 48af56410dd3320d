// Which of its fields an opcode uses.
ghost use Rattle.std.specs.Prelude.{◌≤◌, ◌≡◌};
ghost use Rattle.tokens.specs.Uses.{uses_a, uses_b, uses_k, is_jump};

#[derive(Clone, Copy)]
pub struct Uses {
    pub a: bool,
    pub b: bool,
    pub k: bool,
}

impl Uses {
    const NONE: Uses = Uses {
        a: false,
        b: false,
        k: false,
    };

    const K: Uses = Uses {
        a: false,
        b: false,
        k: true,
    };

    const A_B: Uses = Uses {
        a: true,
        b: true,
        k: false,
    };

    const A_K: Uses = Uses {
        a: true,
        b: false,
        k: true,
    };

    const ALL: Uses = Uses {
        a: true,
        b: true,
        k: true,
    };
}

// The fields that an opcode uses, by ranges of the opcode table.
#[tactic(auto, using(model::proofs::TestLaws::tests), unfolding(crate::specs::Uses::uses_a, crate::specs::Uses::uses_b, crate::specs::Uses::uses_k, model::specs::Program::bounds, model::specs::Test::pick))]
pub fn used(opcode: u64) -> Uses
    requires { opcode ≤ 16 }
    ensures a_value { result.a ≡ uses_a opcode }
    ensures b_value { result.b ≡ uses_b opcode }
    ensures k_value { result.k ≡ uses_k opcode }
{
    match opcode {
        0 | 7 | 8 | 9 | 13 => Uses::A_K,
        1..=6 => Uses::A_B,
        10 | 11 | 14 => Uses::ALL,
        12 | 15 => Uses::K,
        _ => Uses::NONE,
    }
}

// JUMP, JZ and JLT.
#[tactic(auto, using(model::proofs::TestLaws::tests), unfolding(crate::specs::Uses::is_jump, model::specs::Test::both))]
pub fn is_jump(opcode: u64) -> bool
    ensures { result ≡ is_jump opcode }
{
    matches!(opcode, 12..=14)
}
