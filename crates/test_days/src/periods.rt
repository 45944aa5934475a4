//! Several periods: a day by all ways of settling. The case `a-day-in-the-second-of-two-periods` has its report.

use crate::distributions::are_same;
use crate::fixtures::read;

// The text of that case. Account 1 has a surrender for the first period, and emissions of both. It surrenders for the
// second one; then figures of both are determined, a reversal in each is asked for, and a figure is determined again.
const DAY: &str = "\
format,2
day,2025-03-31,6
period,2021,2024
period,2025,2030
current,2
lags,0,1,1,2
surrender,operator,general
surrender,aircraft,general
surrender,aircraft,aviation
admin,901
admin,902
work,2025-03-31
work,2025-04-01
work,2025-04-02
work,2025-04-03
work,2025-04-04
account,1,operator,11,open,no,no,5,100,0
correction,2,-5
user,101,propose
user,102,approve
trusted,2,2025-03-03
retired,4,surrender,general,90,2025-03-28,no
emissions,2021,60
emissions,2022,40
emissions,2025,10
account,2,trading,12,open,no,no,0,0,0
user,201,both
user,202,both
trusted,1,2025-03-03
account,3,aircraft,13,open,no,no,0,0,50
user,301,propose
user,302,approve
account,8,allocation,1,open,no,no,0,0,0
account,9,total,1,open,no,no,0,0,0
do,2025-03-31,101,102,surrender,1,general,20
do,2025-03-31,901,902,assess,1,2025
do,2025-03-31,901,902,assess,1,2022
do,2025-03-31,901,902,reverse,1,6
do,2025-03-31,901,902,reverse,1,4
do,2025-03-31,901,902,assess,1,2022
end
";

#[test]
fn all_ways_settle_a_day_of_two_periods(rt: HostRuntime) {
    let day = read(&rt, rt.alloc(), DAY);
    assert!(rt; are_same(&rt, rt.alloc(), &day, &[1, 2, 3, 4, 5, 6]));
}
