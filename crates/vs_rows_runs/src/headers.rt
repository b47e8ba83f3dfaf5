//! The beginnings of value change dumps, by what is declared.

/// `reg a`
pub const ONE_VARIABLE: &str =
    "$timescale 1 ns $end\n$scope module t $end\n$var reg 1 ! a $end\n$upscope $end\n$enddefinitions $end\n";

/// `reg a, b`
pub const VARIABLES: &str =
    "$timescale 1 ns $end\n$scope module t $end\n$var reg 1 ! a $end\n$var reg 1 \" b $end\n$upscope $end\n$enddefinitions $end\n";

/// `reg a, b, c, d; wire x, y`
pub const SIX: &str =
    "$timescale 1 ns $end\n$scope module t $end\n$var reg 1 ! a $end\n$var reg 1 \" b $end\n$var reg 1 # c $end\n$var reg 1 $ d $end\n$var wire 1 % x $end\n$var wire 1 & y $end\n$upscope $end\n$enddefinitions $end\n";

/// `reg a, b, c, d, e; wire x, y, z`
pub const EIGHT: &str =
    "$timescale 1 ns $end\n$scope module t $end\n$var reg 1 ! a $end\n$var reg 1 \" b $end\n$var reg 1 # c $end\n$var reg 1 $ d $end\n$var reg 1 % e $end\n$var wire 1 & x $end\n$var wire 1 ' y $end\n$var wire 1 ( z $end\n$upscope $end\n$enddefinitions $end\n";
