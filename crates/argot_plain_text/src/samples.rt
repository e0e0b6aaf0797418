// Programs as texts: what the text in front of each becomes as plain code.

/// A goroutine fills a box whose field is then read.
pub const FILLED_BOX: &str = "file main.go
function entry 0 3 4 0 0 own - - - -
  goto 1
  branch 2
  call = f6
  rundefers
  leave
function main.source 5 9 10 0 1 own - - - main::source - -
  goto 6
  op 1
  move 0 1 -
  goto 9
  rundefers
  leave 0
function main.sink 11 12 13 1 0 own - - - main::sink -
  goto 12
  rundefers
  leave
function main.sanitize 14 17 18 1 1 own - - - main::sanitize - -
  goto 15
  move 1 0 -
  goto 17
  rundefers
  leave 1
function main.validate 19 24 25 1 1 own - - - main::validate - - - -
  goto 20
  op 2
  op 3 0 2
  move 1 3 -
  goto 24
  rundefers
  leave 1
function main.fill 26 30 31 1 0 own - - - main::fill - - -
  goto 27
  step 1 0 f0
  call 2 = f1
  write 1 2
  rundefers
  leave
function main.main 32 41 42 0 0 own - - - main::main - f0 - - -
  goto 33
  join 1
  new 2 1
  write 2 1
  move 0 2 -
  go f5 0
  step 3 0 f0
tag field main:Box:v
  read 4 3 -
  call = f2 4
  rundefers
  leave
site 0 0 0 - 21 -
site 34 0 0 f0 34 -
variable main::c 0
";

/// A value in a box has one of two methods.
pub const TWO_METHODS: &str = "file main.go
function entry 0 3 4 0 0 own - - - -
  goto 1
  branch 2
  call = f7
  rundefers
  leave
function main.source 5 9 10 0 1 own - - - main::source - -
  goto 6
  op 1
  move 0 1 -
  goto 9
  rundefers
  leave 0
function main.sink 11 12 13 1 0 own - - - main::sink -
  goto 12
  rundefers
  leave
function main.sanitize 14 17 18 1 1 own - - - main::sanitize - -
  goto 15
  move 1 0 -
  goto 17
  rundefers
  leave 1
function main.validate 19 24 25 1 1 own - - - main::validate - - - -
  goto 20
  op 2
  op 3 0 2
  move 1 3 -
  goto 24
  rundefers
  leave 1
function main.A.m 26 30 31 1 1 own - - - main:A:m none - -
  goto 27
  call 2 = f1
  move 1 2 -
  goto 30
  rundefers
  leave 1
function main.B.m 32 36 37 1 1 own - - - main:B:m none - -
  goto 33
  op 2
  move 1 2 -
  goto 36
  rundefers
  leave 1
function main.main 38 49 50 0 0 own - - - main::main - none - - none - -
  goto 39
  join 1
  new 2 1
  write 2 1
  move 0 2 -
  join 4
  new 5 2
  write 5 4
  move 3 5 -
  call 6 = m3:main.m
  call = f2 6
  rundefers
  leave
function main.A.m 51 54 55 1 1 wrapper - - 5 - - none -
  goto 52
  read 1 0 none
  call 2 = f5 1
  rundefers
  leave 2
function main.B.m 56 59 60 1 1 wrapper - - 6 - - none -
  goto 57
  read 1 0 none
  call 2 = f6 1
  rundefers
  leave 2
site 0 0 0 - 21 -
site 40 0 0 none 31 -
site 44 0 0 none 32 -
variable main::c 0
method 31 main.m 8
method 32 main.m 9
";

/// Closures, a Grow, a Defer, a Go, bound methods, an assertion, a map, a channel, a panic and an external.
pub const MANY_KINDS: &str = "file main.go
function entry 0 3 4 0 0 own - - - -
  goto 1
  branch 2
  call = f4
  rundefers
  leave
function main.source 5 9 10 0 1 own - - - main::source - -
  goto 6
  op 1
  move 0 1 -
  goto 9
  rundefers
  leave 0
function main.sink 11 12 13 1 0 own - - - main::sink -
  goto 12
  rundefers
  leave
function main.A.m 14 18 19 1 1 own - - - main:A:m f0,f1 - -
  goto 15
tag field main:A:s
  move 2 0 f0
  move 1 2 -
  goto 18
  rundefers
  leave 1
function main.main 20 111 112 0 0 own - - - main::main - - f0,f1 - - - - - - - - - - - - f0,f1 - - - - - f0,f1 - - - - f0,f1 - - f0,f1 - - - - - - - - - - - - - - - - - - - - - - - - - - - - - - - - - -
  goto 21
  new 0 1
  call 1 = f1
  join 2 f0=1
  write 0 2
  new 4 2
  step 5 4 x0
  write 5 0
  move 3 4 -
  step 6 0 f1
  step 7 0 f1
tag field main:A:t
  read 8 7 -
  op 9
  call 10 = v3 9
  grow 11 8 10
  write 6 11
  op 12
  call 13 = v3 12
  defer f2 13
  read 15 0 f0,f1
  new 16 4
  write 16 15
  move 14 16 -
  new 18 5
  step 19 18 x0
  write 19 14
  move 17 18 -
  read 21 0 f0,f1
  new 22 6
  step 23 22 x0
  write 23 21
  move 20 22 -
  call 24 = v17
  call = f2 24
  call 25 = v20
  call = f2 25
  assert 28 14 31
  read 29 28 f0,f1
  op 30
  move 26 29 -
  move 27 30 -
  branch 62 64
tag field main:A:s
  move 31 26 f0
  call = f2 31
  new 33 7
  op 34
  call 35 = f1
  step 36 33 k
  write 36 34
  step 37 33 v
  write 37 35
  move 32 33 -
  branch 73 82
  step 40 32 k
  read 41 40 -
  step 42 32 v
  read 43 42 -
  move 38 41 -
  move 39 43 -
  op 44 38 39
  call = f2 44
  goto 72
  op 46
  new 47 8
  move 45 47 -
  call 48 = f1
  step 49 45 c
  write 49 48
  step 50 45 c
  read 51 50 -
  call = f2 51
  new 52 9
  step 53 52 x0
  write 53 0
  go v52
  global 54 0
tag variable main::c
  read 55 54 -
  branch 98 102
  op 56
  new 57 10
  write 57 56
  panic 57
  step 58 0 f1
tag field main:A:t
  read 59 58 -
  op 60 59
  new 61 11
  write 61 60
  new 62 12
  step 63 62 e
  write 63 61
  call = f10 62
  rundefers
  leave
function main.main$1 113 121 122 2 1 own env - - - - - - - - - - -
  goto 114
  step 2 0 x0
  read 3 2 -
  step 5 3 f0
tag field main:A:s
  read 6 5 -
  op 7 1 6
  move 4 7 -
  goto 121
  rundefers
  leave 4
function main.main$2 123 132 133 1 0 own env - - - - - - - - - - -
  goto 124
  step 1 0 x0
  read 2 1 -
  step 3 2 f1
tag field main:A:t
  read 4 3 -
  op 5
  step 6 4 e
  read 7 6 -
  call = f2 7
  rundefers
  leave
function main.A.m 134 137 138 1 1 wrapper - - 3 - - f0,f1 -
  goto 135
  read 1 0 f0,f1
  call 2 = f3 1
  rundefers
  leave 2
function main.I.m 139 143 144 1 1 bound env - - - - - - -
  goto 140
  step 1 0 x0
  read 2 1 -
  call 3 = m2:main.m
  rundefers
  leave 3
function main.A.m 145 149 150 1 1 bound env - - - - - f0,f1 -
  goto 146
  step 1 0 x0
  read 2 1 f0,f1
  call 3 = f3 2
  rundefers
  leave 3
function println 151 151 151 1 0 own - flows - - -
  goto 151
site 0 0 0 - 21 -
site 21 0 0 f0,f1 31 -
site 25 0 0 x0 38 5
site 34 0 0 e 35 -
site 40 0 0 f0,f1 31 -
site 43 0 0 x0 24 8
site 48 0 0 x0.f0,x0.f1 24 9
site 64 0 0 k,v 39 -
site 83 0 0 c 40 -
site 91 0 0 x0 37 6
site 99 0 0 - 22 -
site 105 0 0 - 4 -
site 107 0 0 e 41 -
variable main::c 0
method 31 main.m 7
implements 31 31
";

/// A call of an external that gives a fresh reference.
pub const CALL_SITE: &str = "file main.go
function entry 0 4 5 0 0 own - - - - -
  goto 1
  branch 2
  call 0 = f1
  branch 4
  rundefers
  leave
function main.fresh 6 6 6 0 1 own - inert - main::fresh
  goto 6
site 2 0 0 f0 5 -
";
