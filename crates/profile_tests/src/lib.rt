//! The profile format in numbers: profiles written, read back and refused.
#![tactic(auto)]

#[cfg(test)]
mod tests {
    use loads::airtime::{Airtime, AirtimeLoad};
    use loads::crews::{Crews, CrewsLoad};
    use loads::kind::Kind;
    use loads::pair::{Pair, PairLoad};
    use profile::read::{check as check_profile, read};
    use profile::row::Row;
    use profile::write::write;
    use std::test::Fail;
    use terms::refusal::Refusal;

    type Nested = Pair<Pair<Airtime, Crews>, Airtime>;

    fn airtime(offset: u32, length: u32, rate: u32) -> Result<Row<AirtimeLoad>, Fail> {
        let load = AirtimeLoad::try_from(rate).map_err(|_| Fail::new("above the ceiling"))?;
        Ok(Row {
            offset,
            length,
            load,
        })
    }

    #[test]
    fn marks_are_those_of_the_kinds(rt: HostRuntime) {
        assert_eq!(rt; [Airtime::MARK, Crews::MARK, Nested::MARK], [1, 2, 3]);
    }

    #[test]
    fn one_row_is_written(rt: HostRuntime) -> Result<(), Fail> {
        let rows = [airtime(60, 120, 40)?];
        let mut buffer = [9u8; 23];
        assert_eq!(rt; write::<Airtime>(1440, &rows, &mut buffer), Ok(21));
        assert_eq!(rt;
            buffer,
            [
                1, 0, 0, 5, 0xa0, 0, 0, 0, 1, 0, 0, 0, 60, 0, 0, 0, 120, 0, 0, 0, 40, 9, 9,
            ]
        );
        Ok(())
    }

    #[test]
    fn a_row_cut_in_two_is_refused(rt: HostRuntime) -> Result<(), Fail> {
        let rows = [airtime(60, 60, 40)?, airtime(120, 60, 40)?];
        let mut buffer = [9u8; 40];
        assert_eq!(rt;
            write::<Airtime>(1440, &rows, &mut buffer),
            Err(Refusal::RowLoad)
        );
        assert_eq!(rt; buffer, [9u8; 40]);
        Ok(())
    }

    #[test]
    fn a_short_buffer_is_told_the_bytes_needed(rt: HostRuntime) -> Result<(), Fail> {
        let rows = [airtime(60, 120, 40)?];
        let mut buffer = [9u8; 20];
        assert_eq!(rt;
            write::<Airtime>(1440, &rows, &mut buffer),
            Err(Refusal::TooShort(21))
        );
        assert_eq!(rt; buffer, [9u8; 20]);
        Ok(())
    }

    #[test]
    fn nested_pairs_read_back(rt: HostRuntime) -> Result<(), Fail> {
        let air = airtime(0, 1, 258)?.load;
        let first = PairLoad {
            first: air,
            second: CrewsLoad::from(5),
        };
        let load = PairLoad { first, second: air };
        let rows = [Row {
            offset: 3,
            length: 7,
            load,
        }];
        let mut buffer = [0u8; 33];
        assert_eq!(rt; write::<Nested>(10, &rows, &mut buffer), Ok(33));
        assert_eq!(rt; check_profile::<Airtime>(&buffer), Err(Refusal::OtherMark));
        let profile = read::<Nested>(rt.alloc(), &buffer).map_err(|_| Fail::new("refused"))?;
        assert_eq!(rt; profile.rows.as_slice(), rows.as_slice());
        Ok(())
    }
}
