//! The descriptions of the cases: the samples, and edits of the first one.

/// Each description by its name and that of the one whose text is edited, and its edits. A line that begins with two
/// blanks goes on with the one before.
pub(crate) const DESCRIPTIONS: &str = "\
config x1 s1
toml {name=\"k\", at=\"0xffffffff83002000\", size=\"0x4000\", kind=\"stack\", write=true, marked=true} => {name=\"k\",
  at=\"0xffffffff83002000\", size=\"0x4000\", kind=\"stack\", write=true, marked=true, user_map=true},\\n {name=\"dat\",
  at=\"0xffffffff83006000\", size=\"0x1000\", kind=\"data\", write=true}
toml {name=\"t\", at=\"0xffffffff84001000\", size=\"0x1000\", kind=\"stack\", write=true, user_map=true} => {name=\"t\",
  at=\"0xffffffff84001000\", size=\"0x1000\", kind=\"stack\", write=true, user_map=true, may_fault=true, marked=true}
toml {name=\"n\", at=\"0xffffffff84005000\", size=\"0x1000\", kind=\"stack\", write=true, user_map=true} => {name=\"n\",
  at=\"0xffffffff84005000\", size=\"0x1000\", kind=\"stack\", write=true, user_map=true, marked=true}
toml {name=\"user\", at=\"0x10000\", size=\"0x7ffffffe0000\", kind=\"user\", write=true, user_map=true} => {name=\"user\",
  at=\"0x10000\", size=\"0x7ffffffe0000\", kind=\"user\", write=true, user_map=true, may_fault=true}
toml user_gs_writes = false => user_gs_writes = true
toml user_cs32 = 35\\n => 
toml {entry=\"0xffffffff81800010\", stack=2048, events=[], after_if=\"off\", returns=true} => {entry=\"0xffffffff81800010\",
  stack=0, events=[\"irq\"], after_if=\"keep\", returns=true}
toml {entry=\"0xffffffff81800020\", stack=2048, events=[], after_if=\"off\", returns=true} => {entry=\"0xffffffff81800020\",
  stack=4096, events=[], after_if=\"any\", returns=true}
toml {entry=\"0xffffffff81800030\", stack=2048, events=[], after_if=\"off\", returns=true} => {entry=\"0xffffffff81800030\",
  stack=64, events=[\"debug\",\"fault\"], after_if=\"on\", returns=true}
toml {entry=\"0xffffffff81800040\", stack=2048, events=[], after_if=\"off\", returns=true} => {entry=\"0xffffffff81800040\",
  stack=4104, events=[], after_if=\"off\", returns=true}
toml {entry=\"0xffffffff81800050\", stack=2048, events=[], after_if=\"off\", returns=true} => {entry=\"0xffffffff81800050\",
  stack=24, events=[\"irq\",\"debug\",\"fault\"], after_if=\"keep\", returns=true}
toml gate = [\\n => gate = [\\n {vector=3, entry=\"0xffffffff81000100\", trap=true},\\n {vector=13,
  entry=\"0xffffffff81000200\", ist=1},\\n {vector=17, entry=\"0xffffffff81000200\"},\\n {vector=33,
  entry=\"0xffffffff81000100\", ist=4},\\n {vector=34, entry=\"0xffffffff81000100\", ist=5},\\n {vector=40,
  entry=\"0xffffffff81000100\", trap=true},\\n {vector=128, entry=\"0xffffffff81000100\", user=true},\\n
toml {at=\"0xffffffff82002808\", value=\"0xffffffff83006000\"}] => {at=\"0xffffffff82002808\", value=\"0xffffffff83006000\"},
  {at=\"0xffffffff82002810\", value=\"0x5\"}]
toml \"0xffffffff84008000\",\"0x0\",\"0x0\" => \"0xffffffff84008000\",\"0xffffffff83005008\",\"0xffffffff84001018\"
config x2 s1
toml {name=\"area\", at=\"0xffffffff82000000\", size=\"0x3000\", kind=\"area\", write=true, user_map=true} => {name=\"ia\",
  at=\"0xffffffff82000000\", size=\"0x1000\", kind=\"area\", user_map=true},\\n {name=\"ga\", at=\"0xffffffff82001000\",
  size=\"0x1000\", kind=\"area\"},\\n {name=\"area\", at=\"0xffffffff82002000\", size=\"0x1000\", kind=\"area\", write=true,
  user_map=true}
toml {name=\"t\", at=\"0xffffffff84001000\", size=\"0x1000\", kind=\"stack\", write=true, user_map=true} => {name=\"t\",
  at=\"0xffffffff84001000\", size=\"0x1000\", kind=\"stack\", write=true}
toml {name=\"n\", at=\"0xffffffff84005000\", size=\"0x1000\", kind=\"stack\", write=true, user_map=true} => {name=\"n\",
  at=\"0xffffffff84005000\", size=\"0x1000\", kind=\"stack\", write=true, user_map=true, may_fault=true}
toml {name=\"quiet\", at=\"0xffffffff81001000\", size=\"0x1000\", kind=\"text\", exec=true, user_map=true, quiet=true} =>
  {name=\"quiet\", at=\"0xffffffff81001000\", size=\"0x1000\", kind=\"text\", exec=true, user_map=true}
toml star_kernel = 16 => star_kernel = 4088
toml {entry=\"0xffffffff81800000\", stack=2048, events=[\"irq\",\"fault\"], after_if=\"off\", returns=true} =>
  {entry=\"0xffffffff81800000\", stack=4096, events=[\"irq\",\"fault\"], after_if=\"off\", returns=true}
toml {entry=\"0xffffffff81800060\", stack=2048, events=[], after_if=\"off\", returns=false} =>
  {entry=\"0xffffffff81800060\", stack=2048, events=[\"debug\"], after_if=\"off\", returns=false}
config x4 s1
toml {entry=\"0xffffffff81800000\", stack=2048, events=[\"irq\",\"fault\"], after_if=\"off\", returns=true} =>
  {entry=\"0xffffffff81800000\", stack=2048, events=[\"irq\",\"fault\"], after_if=\"off\", returns=true, frame=8}
toml {entry=\"0xffffffff81800010\", stack=2048, events=[], after_if=\"off\", returns=true} => {entry=\"0xffffffff81800010\",
  stack=2048, events=[], after_if=\"off\", returns=true, frame=128}
toml {entry=\"0xffffffff81800020\", stack=2048, events=[], after_if=\"off\", returns=true} => {entry=\"0xffffffff81800020\",
  stack=2048, events=[], after_if=\"off\", returns=true, frame=136}
toml {entry=\"0xffffffff81800030\", stack=2048, events=[], after_if=\"off\", returns=true} => {entry=\"0xffffffff81800030\",
  stack=2048, events=[], after_if=\"off\", returns=true, frame=16}
toml {entry=\"0xffffffff81800040\", stack=2048, events=[], after_if=\"off\", returns=true} => {entry=\"0xffffffff81800040\",
  stack=2048, events=[], after_if=\"off\", returns=true, frame=4096}
config x3 s1
toml {name=\"area\", at=\"0xffffffff82000000\", size=\"0x3000\", kind=\"area\", write=true, user_map=true} => {name=\"ia\",
  at=\"0xffffffff82000000\", size=\"0x2000\", kind=\"area\", user_map=true},\\n {name=\"area\", at=\"0xffffffff82002000\",
  size=\"0x1000\", kind=\"area\", write=true}
";
