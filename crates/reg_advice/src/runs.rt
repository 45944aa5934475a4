//! How work on instructions is divided.

use reg_base::FEW_ROWS;

/// In how many runs so many instructions are worth being looked at by so many workers. 0 means one run.
pub fn runs_of(instructions: u32, workers: u32) -> u32 {
    (instructions / FEW_ROWS).min(workers)
}

#[cfg(test)]
mod tests {
    use super::*;

    #[test]
    fn few_instructions_are_one_run(rt: HostRuntime) {
        for (instructions, workers, runs) in [
            (1_023, 4, 0),
            (1_024, 4, 1),
            (4_096, 4, 4),
            (5_120, 4, 4),
            (9_000, 2, 2),
        ] {
            assert_eq!(rt;
                runs_of(instructions, workers),
                runs,
                "{instructions} by {workers}"
            );
        }
    }
}
