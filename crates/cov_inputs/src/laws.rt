ghost use Rattle.cov_inputs.specs.Laws.{HaveWhatIsTold};

use cov_remap::whole_way;

/// Does nothing. Its contract says what the sums of coverage files have at each key.
pub fn each_input()
    ensures { HaveWhatIsTold }
{
    whole_way();
}
